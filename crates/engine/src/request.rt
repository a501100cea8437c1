// What a record of a trace asks of the node, by its kind and its body.
ghost use Rattle.std.specs.Prelude.{◌≡◌};
ghost use Rattle.engine.specs.Asking.{request_of, octets_from};

use channel::Node;
use node::Request;

// The kinds of records are the trace's numbers, and every number may stand there: what they ask is told by the enum `Request`.
pub const ARRIVAL: u16 = 1;

pub const TICK: u16 = 2;

pub const OPEN: u16 = 3;

pub const CLOSE: u16 = 4;

pub const TRANSFER: u16 = 5;

pub const TAKE: u16 = 6;

pub const NEXT: u16 = 7;

pub const RECLAIM: u16 = 8;

// But for an arrival and a next packet a request begins with a channel index octet; where that is missing, or the kind is unknown, it is no
// channel's.
#[tactic(auto, unfolding(crate::specs::Asking::request_of, crate::specs::Asking::indexed_by))]
pub fn request_of(kind: u16, body: &[u8], node: Node) -> Request
    ensures { result ≡ request_of kind body.now node }
{
    match (kind, body) {
        (ARRIVAL, _) => Request::Arrival(node),
        (NEXT, _) => Request::NextPacket(node),
        (OPEN, [index, ..]) => Request::Open(usize::from(*index)),
        (CLOSE, [index, ..]) => Request::Close(usize::from(*index)),
        (TRANSFER, [index, ..]) => Request::Transfer(usize::from(*index)),
        (TAKE, [index, ..]) => Request::Take(usize::from(*index)),
        (RECLAIM, [index, ..]) => Request::Reclaim(usize::from(*index)),
        _ => Request::Unknown,
    }
}

// Where the octets that are handed over begin: a packet is the whole body, a unit what follows the index octet.
#[tactic(auto, unfolding(crate::specs::Asking::octets_from))]
pub fn octets_from(kind: u16, body: &[u8]) -> usize
    ensures { result ≡ octets_from kind body.now }
{
    match (kind, body) {
        (ARRIVAL, _) | (_, []) => 0,
        _ => 1,
    }
}
