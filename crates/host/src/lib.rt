// The library for C and Rust: each call under the prefix peat_, over numbers, lent slices and #[repr(C)] structs. None has a `requires`.
#![tactic(auto)]

pub mod answers;
pub mod calls;
pub mod packets;

ghost use Rattle.std.specs.Prelude.{◌≡◌, length};
ghost use Rattle.crc.specs.Crc.{crc_of};
ghost use Rattle.packet.specs.Reading.{read_of};
ghost use Rattle.packet.specs.Writing.{written_of, after_write};
ghost use Rattle.host.specs.Packet.{reading_of, writing_of};

use crate::packets::{Reading, Writing, reading_of, writing_of};
use packet::Fields;

// The check sum of so many octets.
pub fn peat_crc(octets: &[u8]) -> u16
    ensures { result ≡ crc_of octets.now }
{
    crc::crc_of(octets)
}

// Reads a packet alone: 0, 1, 2, 3 or 4.
pub fn peat_read_packet(packet: &[u8]) -> Reading
    ensures { result ≡ reading_of (read_of packet.now) }
{
    reading_of(packet::read_packet(packet))
}

// Writes a packet alone: 0, 3, 4 or 11.
pub fn peat_write_packet(fields: Fields, prefix: &[u8], payload: &[u8], out: &mut [u8]) -> Writing
    ensures { (result ≡ writing_of (written_of fields (length prefix.now) (length payload.now) (length out.old))) × (out.new ≡ after_write (written_of fields (length prefix.now) (length payload.now) (length out.old)) fields prefix.now payload.now out.old) }
{
    writing_of(packet::write_packet(fields, prefix, payload, out))
}
