// A packet is read where it lies: the answer says where its payload is.
ghost use Rattle.std.specs.Prelude.{◌≡◌, ◌+◌, ◌≤◌, Err, length};
ghost use Rattle.laws.specs.Octets.{pair_at};
ghost use Rattle.packet.specs.Layout.{least, most_prefix, whole_length, fields_at, prefix_at, length_at};
ghost use Rattle.packet.specs.Tests.{short, damaged};
ghost use Rattle.packet.specs.Reading.{read_of, read_number};

use crate::fields::{FRONT, Fields, HEAD, LEAST, is_lacking, is_strange};

// The fields, how many octets the prefix has, where the payload begins, and how many octets it has.
#[derive(Clone, Copy)]
pub struct Found {
    pub fields: Fields,
    pub prefix: usize,
    pub start: usize,
    pub length: usize,
}

#[derive(Clone, Copy, PartialEq, Eq, Debug)]
pub enum ReadError {
    Short,
    Damaged,
    Lacking,
    Strange,
}

// Whatever is given: tests 1, 2, 4, 3 in this order, else the packet.
pub fn read_packet(packet: &[u8]) -> Result<Found, ReadError>
    ensures { result ≡ read_of packet.now }
{
    if is_short(packet) {
        return Err(ReadError::Short);
    }
    if is_damaged(packet) {
        return Err(ReadError::Damaged);
    }
    let prefix = prefix_at(packet);
    let fields = fields_at(packet, prefix);
    if is_lacking(fields, prefix) {
        return Err(ReadError::Lacking);
    }
    let length = length_at(packet);
    if is_strange(fields, length) {
        return Err(ReadError::Strange);
    }
    Ok(Found {
        fields,
        prefix,
        start: HEAD + prefix,
        length,
    })
}

// The answer number of document 01. Of a result it is a function: `Result` is none of this crate's types, so it can have no `From` here.
pub fn read_number(r: Result<Found, ReadError>) -> u32
    ensures { result ≡ read_number r }
{
    match r {
        Ok(_) => 0,
        Err(why) => u32::from(why),
    }
}

impl From<ReadError> for u32 {
    ghost from_gives = { λ why number. number ≡ read_number (Err why) };

    fn from(why: ReadError) -> u32 {
        match why {
            ReadError::Short => 1,
            ReadError::Damaged => 2,
            ReadError::Lacking => 4,
            ReadError::Strange => 3,
        }
    }
}

// Under 12 octets, or not 12 + N + X.
#[tactic(auto, unfolding(crate::specs::Tests::short))]
fn is_short(packet: &[u8]) -> bool
    ensures { result ≡ short packet.now }
{
    packet.len() < LEAST || packet.len() != LEAST + prefix_at(packet) + length_at(packet)
}

// The last two octets are not the check sum of those before.
#[tactic(auto, unfolding(crate::specs::Tests::damaged))]
fn is_damaged(packet: &[u8]) -> bool
    requires { least ≤ length packet.now }
    ensures { result ≡ damaged packet.now }
{
    let end = packet.len() - 2;
    crc::crc_of(&packet[..end]) != pair(packet, end)
}

// With a prefix of so many octets.
fn fields_at(packet: &[u8], prefix: usize) -> Fields
    requires { (prefix ≡ prefix_at packet.now) × (whole_length prefix 0 ≤ length packet.now) }
    ensures { result ≡ fields_at packet.now }
{
    let control = packet[2];
    let address = packet[8];
    Fields {
        destination: packet[0],
        protocol: packet[1],
        version: control / 64,
        secondary: control / 32 % 2,
        flags: control / 8 % 4,
        kind: control % 8,
        channel: pair(packet, 5),
        number: packet[7],
        reserved: address / 16,
        source: packet[FRONT + prefix],
    }
}

fn prefix_at(packet: &[u8]) -> usize
    requires { least ≤ length packet.now }
    ensures { (result ≡ prefix_at packet.now) × (result ≤ most_prefix) }
{
    usize::from(packet[8] % 16)
}

fn length_at(packet: &[u8]) -> usize
    requires { least ≤ length packet.now }
    ensures { (result ≡ length_at packet.now) × (result ≤ 65535) }
{
    usize::from(pair(packet, 3))
}

// The two octets from a place on, the most significant first.
fn pair(packet: &[u8], at: usize) -> u16
    requires { at + 2 ≤ length packet.now }
    ensures { result ≡ pair_at packet.now at }
{
    u16::from_be_bytes([packet[at], packet[at + 1]])
}
