// What C links: each call of `host` under its own name, with the same clauses.
#![tactic(auto)]

pub mod calls;

ghost use Rattle.std.specs.Prelude.{◌≡◌, length};
ghost use Rattle.crc.specs.Crc.{crc_of};
ghost use Rattle.packet.specs.Reading.{read_of};
ghost use Rattle.packet.specs.Writing.{written_of, after_write};
ghost use Rattle.host.specs.Packet.{reading_of, writing_of};

use host::packets::{Reading, Writing};
use packet::Fields;

// The check sum of so many octets.
#[unsafe(no_mangle)]
pub extern "C" fn peat_crc(octets: &[u8]) -> u16
    ensures { result ≡ crc_of octets.now }
{
    host::peat_crc(octets)
}

// Reads a packet alone: 0, 1, 2, 3 or 4.
#[unsafe(no_mangle)]
pub extern "C" fn peat_read_packet(packet: &[u8]) -> Reading
    ensures { result ≡ reading_of (read_of packet.now) }
{
    host::peat_read_packet(packet)
}

// Writes a packet alone: 0, 3, 4 or 11.
#[unsafe(no_mangle)]
pub extern "C" fn peat_write_packet(
    fields: Fields,
    prefix: &[u8],
    payload: &[u8],
    out: &mut [u8],
) -> Writing
    ensures { (result ≡ writing_of (written_of fields (length prefix.now) (length payload.now) (length out.old))) × (out.new ≡ after_write (written_of fields (length prefix.now) (length payload.now) (length out.old)) fields prefix.now payload.now out.old) }
{
    host::peat_write_packet(fields, prefix, payload, out)
}
