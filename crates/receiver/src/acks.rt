// Acks: what an end replies. A transmit end has two of them, that of a Heartbeat and that of Flow Control.
ghost use Rattle.std.specs.Prelude.{◌≡◌, ◌++◌, ◌≤◌, length, drop, true};
ghost use Rattle.channel.specs.Prefixes.{prefix_of, fit_prefix};
ghost use Rattle.channel.specs.Steps.{outgoing_of, outgoing_length};
ghost use Rattle.packet.specs.Kinds.{most_carried};
ghost use Rattle.packet.specs.Layout.{packet_of};
ghost use Rattle.packet.specs.Tests.{flags_whole};
ghost use Rattle.receiver.specs.Receiving.{ack_kind, stated_count, carries, stated_by};

use channel::flow::number_stated;
use channel::step::{outgoing, write_outgoing};
use channel::{Addresses, Limits, Node, Window};
use packet::Kind;
use packet::fields::WHOLE;

// What is acknowledged.
#[derive(Clone, Copy)]
pub enum Acked {
    Data,
    Open,
    Close,
    Heartbeat,
    Flow,
}

fn ack_kind(of: Acked) -> Kind
    ensures { result ≡ ack_kind of }
{
    match of {
        Acked::Data => Kind::DataAck,
        Acked::Open | Acked::Close => Kind::ControlAck,
        Acked::Heartbeat => Kind::HeartbeatAck,
        Acked::Flow => Kind::FlowControl,
    }
}

// Where Flow Control is used, an ack of Data or Control carries one octet.
pub fn stated_count(l: Limits) -> usize
    ensures { result ≡ stated_count l }
{
    if l.flow == 0 { 0 } else { 1 }
}

pub fn carries(of: Acked, l: Limits) -> usize
    ensures { result ≡ carries of l }
{
    match of {
        Acked::Data | Acked::Open | Acked::Close => stated_count(l),
        Acked::Heartbeat | Acked::Flow => 0,
    }
}

// Which: the number stated. That of a Close means nothing.
pub fn stated_by(of: Acked, l: Limits, w: Window) -> u8
    requires { l.window ≤ 128 }
    ensures { result ≡ stated_by of l w }
{
    match of {
        Acked::Data | Acked::Open => number_stated(l, w),
        Acked::Close => l.window as u8,
        Acked::Heartbeat | Acked::Flow => 0,
    }
}

// The ack of a packet, with its number and what it carries, at the front of the reply. The octets past it stay.
pub fn acknowledge(
    node: Node,
    a: Addresses,
    of: Acked,
    number: u8,
    payload: &[u8],
    reply: &mut [u8],
)
    requires { (fit_prefix a.own ≡ true) × (length payload.now ≤ most_carried (ack_kind of)) × (outgoing_length a (length payload.now) ≤ length reply.old) }
    ensures { reply.new ≡ packet_of (outgoing_of node a (ack_kind of) flags_whole number) (prefix_of a.own) payload.now ++ drop (outgoing_length a (length payload.now)) reply.old }
{
    let fields = outgoing(node, a, ack_kind(of), WHOLE, number);
    let _ = write_outgoing(a, fields, payload, reply);
}
