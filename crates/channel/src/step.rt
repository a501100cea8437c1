// What every step of a channel is made of: the channel and an answer; an opening begun; the fields of a packet that goes out.
ghost use Rattle.std.specs.Prelude.{◌≡◌, ◌<◌, ◌^◌, true, length};
ghost use Rattle.packet.specs.Writing.{written_of, after_write};
ghost use Rattle.channel.specs.Prefixes.{prefix_of, fit_prefix};
ghost use Rattle.channel.specs.Steps.{answered, refusing, doing, enabled_of, outgoing_of, outgoing_length};

use crate::answer::{Answer, Refusal};
use crate::record::{Addresses, Channel, ENABLED, Lone, Node, fresh};
use packet::fields::LEAST;
use packet::{Fields, Kind, WriteError, write_packet};

// The channel after a step, and what the step answers. No `Result`: what a refusal leaves is said of the channel too, and a caller stores it and lists it
// in either case.
#[derive(Clone, Copy)]
pub struct Stepped {
    pub channel: Channel,
    pub answer: Answer,
}

// The channel after a tick, and whether it went inactive in it. No `Option`: the channel counts in either case, and one that went inactive has the reason
// in its record.
#[derive(Clone, Copy)]
pub struct Ticked {
    pub channel: Channel,
    pub inactive: bool,
}

// An answer, and nothing has changed.
pub fn unchanged(c: Channel, answer: Answer) -> Stepped
    ensures { result ≡ answered c answer }
{
    Stepped { channel: c, answer }
}

pub fn refused(c: Channel, why: Refusal) -> Stepped
    ensures { result ≡ refusing c why }
{
    Stepped {
        channel: c,
        answer: Answer::Refused(why),
    }
}

// Done, with so many octets written.
pub fn done(c: Channel, length: usize) -> Stepped
    ensures { result ≡ doing c length }
{
    Stepped {
        channel: c,
        answer: Answer::Done {
            length,
            confirmed: 0,
        },
    }
}

// An opening begins: ENABLED, with a fresh window and nothing held. The reason of the last one goes.
pub fn enabled(c: Channel, control: Lone) -> Channel
    ensures { result ≡ enabled_of c control }
{
    fresh(c.addresses, c.limits, ENABLED, control)
}

// From this node to the channel's other end.
pub fn outgoing(node: Node, a: Addresses, kind: Kind, flags: u8, number: u8) -> Fields
    ensures { result ≡ outgoing_of node a kind flags number }
{
    Fields {
        destination: a.remote,
        protocol: node.protocol,
        version: 1,
        secondary: 0,
        flags,
        kind: u8::from(kind),
        channel: a.channel,
        number,
        reserved: 0,
        source: node.address,
    }
}

// How many octets a packet to the channel's other end has with a payload of n octets: of any kind, it carries the own prefix.
pub fn outgoing_length(a: Addresses, n: usize) -> usize
    requires { outgoing_length a n < 2 ^ 64 }
    ensures { result ≡ outgoing_length a n }
{
    LEAST + usize::from(a.own.length) + n
}

// A packet to the channel's other end is written with the own prefix.
pub fn write_outgoing(
    a: Addresses,
    fields: Fields,
    payload: &[u8],
    out: &mut [u8],
) -> Result<usize, WriteError>
    requires { fit_prefix a.own ≡ true }
    ensures { (result ≡ written_of fields a.own.length (length payload.now) (length out.old)) × (out.new ≡ after_write result fields (prefix_of a.own) payload.now out.old) }
{
    let prefix = a.own.octets;
    let n = usize::from(a.own.length);
    write_packet(fields, &prefix[..n], payload, out)
}
