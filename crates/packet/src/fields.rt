// The fields of a packet, and the two tests that look at nothing else: what is not carried (4), and what is strange (3).
ghost use Rattle.std.specs.Prelude.{◌≡◌};
ghost use Rattle.packet.specs.Kinds.{carried};
ghost use Rattle.packet.specs.Tests.{lacking, flags_allowed, payload_allowed, strange};

use crate::kinds::{Kind, is_data, most_carried};

// As 000, 4.2.3, names and orders them, each subfield a number of its own, so that a caller can also say what is refused.
// The lengths of the prefix and of the payload are not among them: they are the prefix's and the payload's own.
#[repr(C)]
#[derive(Clone, Copy)]
pub struct Fields {
    pub destination: u8,
    pub protocol: u8,
    pub version: u8,
    pub secondary: u8,
    pub flags: u8,
    pub kind: u8,
    pub channel: u16,
    pub number: u8,
    pub reserved: u8,
    pub source: u8,
}

// Without a prefix: where the payload begins, and the octets of a packet that has none (document 01, The packet). A prefix comes on top.
pub const HEAD: usize = 10;

pub const LEAST: usize = 12;

// Where the prefix begins, and the most octets that it has (document 02, A7; 000, 4.2.3.8.3).
pub const FRONT: usize = 9;

pub const MOST_PREFIX: usize = 15;

// Sequence flags (000, Table 4-1).
pub const MIDDLE: u8 = 0;

pub const FIRST: u8 = 1;

pub const LAST: u8 = 2;

pub const WHOLE: u8 = 3;

// The version of the protocol (000, 4.2.3.4.2).
pub const VERSION: u8 = 1;

// A secondary header, a prefix of more octets than can be counted, or a type that is not carried.
#[tactic(auto, unfolding(crate::specs::Tests::lacking))]
pub fn is_lacking(f: Fields, prefix: usize) -> bool
    ensures { result ≡ lacking f prefix }
{
    f.secondary != 0 || MOST_PREFIX < prefix || !is_carried(Kind::from(f.kind))
}

// Another header field unexpected, with a payload of so many octets.
#[tactic(auto, unfolding(crate::specs::Tests::strange))]
pub fn is_strange(f: Fields, length: usize) -> bool
    ensures { result ≡ strange f length }
{
    let kind = Kind::from(f.kind);
    f.version != VERSION
        || f.reserved != 0
        || !allows_flags(kind, f.flags)
        || !allows_payload(kind, f.flags, length)
}

// The kinds that are carried.
fn is_carried(kind: Kind) -> bool
    ensures { result ≡ carried kind }
{
    !matches!(kind, Kind::Lacking(_))
}

fn allows_flags(kind: Kind, flags: u8) -> bool
    ensures { result ≡ flags_allowed kind flags }
{
    if is_data(kind) {
        flags <= WHOLE
    } else {
        flags == WHOLE
    }
}

// No empty middles: a segment that does not end its unit carries something.
fn allows_payload(kind: Kind, flags: u8, length: usize) -> bool
    ensures { result ≡ payload_allowed kind flags length }
{
    if !is_data(kind) {
        return length <= most_carried(kind);
    }
    if length == 0 {
        LAST <= flags
    } else {
        length <= 65535
    }
}
