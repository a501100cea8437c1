// Data arrives at the channel that it is for.
// `arrive_data` stays a function of its own when it is compiled, so that a call takes the stack of its own step alone.
ghost use Rattle.std.specs.Prelude.{◌≡◌, ◌≤◌, ◌<◌, length};
ghost use Rattle.walks.specs.Serving.{works};
ghost use Rattle.channel.specs.Record.{receives};
ghost use Rattle.receiver.specs.Receiving.{ack_length};
ghost use Rattle.table.specs.Surveying.{Served, stepping};
ghost use Rattle.arrivals.specs.Data.{reply_length, unfit_as, unfit, data_for};

use crate::replying::replying;
use channel::step::outgoing_length;
use channel::{Channel, Node, Stepped};
use packet::fields::LEAST;
use packet::{Fields, Kind};
use receiver::Acked;
use receiver::acks::stated_count;
use receiver::leaving::ack_length;
use table::Decision;

// The octets that the reply to a packet of a kind needs: an Ack carries the own prefix, and to an Ack no reply is due. Type 6 is Flow Control, and
// answered, where it carries an octet; its Ack carries none, as that of a Heartbeat.
pub fn reply_length(c: Channel, kind: Kind, length: usize) -> usize
    ensures { result ≡ reply_length c kind length }
{
    match kind {
        Kind::Data | Kind::Open | Kind::Close => ack_length(c.addresses, c.limits),
        Kind::FlowControl if length == 0 => LEAST,
        Kind::Heartbeat | Kind::FlowControl => outgoing_length(c.addresses, 0),
        Kind::DataAck | Kind::HeartbeatAck | Kind::ControlAck | Kind::Lacking(_) => LEAST,
    }
}

// What a channel cannot take, though the packet is sound: a payload over P; Flow Control, or a number in an Ack, where it is not used; an Ack without one
// where it is.
fn is_unfit_as(kind: Kind, c: Channel, length: usize) -> bool
    ensures { result ≡ unfit_as kind c length }
{
    match kind {
        Kind::Data => c.limits.payload < length,
        Kind::DataAck | Kind::ControlAck => length != stated_count(c.limits),
        Kind::FlowControl => c.limits.flow == 0,
        Kind::Open | Kind::Close | Kind::Heartbeat | Kind::HeartbeatAck | Kind::Lacking(_) => false,
    }
}

#[tactic(auto, unfolding(crate::specs::Data::unfit))]
pub fn is_unfit(c: Channel, f: Fields, length: usize) -> bool
    ensures { result ≡ unfit c f length }
{
    is_unfit_as(Kind::from(f.kind), c, length)
}

// Data is filed in the channel's own part, and acknowledged where the answer is 0 or 15.
#[inline(never)]
pub fn arrive_data(
    c: Channel,
    d: Decision,
    node: Node,
    f: Fields,
    payload: &[u8],
    mem: &mut [u8],
    lens: &mut [u16],
    out: &mut [u8],
) -> Stepped
    requires { (Served c d mem.old lens.old) × (c.addresses.direction ≡ receives) × (f.flags < 4) × (length payload.now ≤ c.limits.payload) × (ack_length c ≤ length out.old) }
    ensures { works result mem.new lens.new out.new ≡ stepping (data_for node f payload.now) c d mem.old lens.old out.old }
{
    let s = receiver_data::data_step(
        c,
        f.number,
        f.flags,
        payload,
        &mut mem[d.spot.octets(c.limits)],
        &mut lens[d.spot.slots(c.limits)],
    );
    replying(&c, s, node, Acked::Data, f.number, out)
}
