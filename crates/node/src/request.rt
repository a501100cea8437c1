// What is asked of the node, beside the octets read and the buffer written.
ghost use Rattle.std.specs.Prelude.{◌≡◌};
ghost use Rattle.node.specs.Calls.{look_in};

use arrivals::finding::look_of;
use channel::{Node, Refusal};
use table::looking::seek;
use table::{Look, Sought};

// The number is the index of the channel.
#[derive(Clone, Copy)]
pub enum Request {
    // Directives.
    Open(usize),
    Close(usize),
    // The octets read are a unit to be sent.
    Transfer(usize),
    // What a transfer of so many octets would answer: nothing changes.
    WouldTransfer { index: usize, count: usize },
    // The oldest complete unit of a receiver; the oldest unit that a closed sender holds.
    Take(usize),
    Reclaim(usize),
    // The octets read are a packet that came from the link; and the packet that goes out next. With the node's own settings.
    Arrival(Node),
    NextPacket(Node),
    // For no channel.
    Unknown,
}

// Which channel it is for, with a lent buffer of so many octets.
pub fn look_in(n: Request, x: &[u8], room: usize) -> Look
    ensures { result ≡ look_in n x.now room }
{
    match n {
        Request::Open(index)
        | Request::Close(index)
        | Request::Transfer(index)
        | Request::Take(index)
        | Request::Reclaim(index) => seek(Sought::Index(index)),
        Request::WouldTransfer { index, .. } => seek(Sought::Question(index)),
        Request::Arrival(node) => look_of(node, x, room),
        Request::NextPacket(_) => seek(Sought::Ready),
        Request::Unknown => seek(Sought::Nobody(Refusal::NoChannel)),
    }
}
