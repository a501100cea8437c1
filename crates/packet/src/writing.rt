// A packet is written into a lent buffer, whole or not at all.
ghost use Rattle.std.specs.Prelude.{◌≡◌, ◌++◌, ◌+◌, ◌≤◌, Err, length, take, drop};
ghost use Rattle.laws.specs.Octets.{octets_of};
ghost use Rattle.crc.specs.Crc.{crc_of};
ghost use Rattle.packet.specs.Layout.{payload_at, front_of, head_of};
ghost use Rattle.packet.specs.Tests.{Sound};
ghost use Rattle.packet.specs.Writing.{written_of, after_write, written_number};

use crate::fields::{FRONT, Fields, HEAD, LEAST, is_lacking, is_strange};

#[derive(Clone, Copy, PartialEq, Eq, Debug)]
pub enum WriteError {
    Lacking,
    Strange,
    // How many octets the buffer must have.
    Small(usize),
}

// Whatever is given: tests 4, 3, 11 in this order, else the packet at the buffer's front, and how many octets it has. The octets past it stay,
// and a refusal leaves the whole buffer as it was.
pub fn write_packet(
    fields: Fields,
    prefix: &[u8],
    payload: &[u8],
    out: &mut [u8],
) -> Result<usize, WriteError>
    ensures { (result ≡ written_of fields (length prefix.now) (length payload.now) (length out.old)) × (out.new ≡ after_write result fields prefix.now payload.now out.old) }
{
    let length = payload.len();
    if is_lacking(fields, prefix.len()) {
        return Err(WriteError::Lacking);
    }
    if is_strange(fields, length) {
        return Err(WriteError::Strange);
    }
    let head = HEAD + prefix.len();
    let whole = LEAST + prefix.len() + length;
    if out.len() < whole {
        return Err(WriteError::Small(whole));
    }
    lay_head(fields, prefix, length as u16, out);
    out[head..head + length].copy_from_slice(payload);
    seal(out, head + length);
    Ok(whole)
}

// The answer number of document 01. Of a result it is a function: `Result` is none of this crate's types, so it can have no `From` here.
pub fn written_number(w: Result<usize, WriteError>) -> u32
    ensures { result ≡ written_number w }
{
    match w {
        Ok(_) => 0,
        Err(why) => u32::from(why),
    }
}

impl From<WriteError> for u32 {
    ghost from_gives = { λ why number. number ≡ written_number (Err why) };

    fn from(why: WriteError) -> u32 {
        match why {
            WriteError::Lacking => 4,
            WriteError::Strange => 3,
            WriteError::Small(_) => 11,
        }
    }
}

// What stands before a payload of so many octets goes to the buffer's front.
fn lay_head(f: Fields, prefix: &[u8], count: u16, out: &mut [u8])
    requires { (Sound f (length prefix.now) count) × (payload_at (length prefix.now) ≤ length out.old) }
    ensures { out.new ≡ head_of f prefix.now count ++ drop (payload_at (length prefix.now)) out.old }
{
    let n = prefix.len();
    let front = front_of(f, n as u8, count);
    out[..FRONT].copy_from_slice(&front);
    out[FRONT..FRONT + n].copy_from_slice(prefix);
    out[FRONT + n] = f.source;
}

// What stands before a prefix of n octets.
fn front_of(f: Fields, n: u8, count: u16) -> [u8; FRONT]
    requires { Sound f n count }
    ensures { result ≡ front_of f n count }
{
    let [count_high, count_low] = count.to_be_bytes();
    let [channel_high, channel_low] = f.channel.to_be_bytes();
    [
        f.destination,
        f.protocol,
        f.version * 64 + f.secondary * 32 + f.flags * 8 + f.kind,
        count_high,
        count_low,
        channel_high,
        channel_low,
        f.number,
        f.reserved * 16 + n,
    ]
}

// The check sum of the first n octets goes behind them.
fn seal(out: &mut [u8], n: usize)
    requires { n + 2 ≤ length out.old }
    ensures { out.new ≡ take n out.old ++ octets_of (crc_of (take n out.old)) ++ drop (n + 2) out.old }
{
    let sum = crc::crc_of(&out[..n]);
    out[n..n + 2].copy_from_slice(&sum.to_be_bytes());
}
