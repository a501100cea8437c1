// A packet arrives for a channel that was found: it is taken by that channel's end.
// What is marked `inline(never)` stays a function of its own when it is compiled, so that a call takes the stack of its own step alone.
ghost use Rattle.std.specs.Prelude.{◌≡◌, ◌+◌, ◌≤◌, [], true, false, length, take, drop};
ghost use Rattle.channel.specs.Record.{receives};
ghost use Rattle.channel.specs.Steps.{outgoing_length};
ghost use Rattle.channel.specs.Pulse.{heartbeat_step};
ghost use Rattle.channel.specs.Flow.{flow_step};
ghost use Rattle.receiver.specs.declared.acks.Acked.TheVariants as acked;
ghost use Rattle.packet.specs.Kinds.{kind_of};
ghost use Rattle.packet.specs.Layout.{payload_in};
ghost use Rattle.walks.specs.Serving.{works};
ghost use Rattle.channel.specs.Asked.{Ringed};
ghost use Rattle.channel.specs.Prefixes.{fit_prefix};
ghost use Rattle.receiver.specs.Receiving.{carries, carrying, control_step};
ghost use Rattle.table.specs.Surveying.{Served, stepping};
ghost use Rattle.arrivals.specs.Finding.{look_of};
ghost use Rattle.arrivals.specs.Data.{unfit};
ghost use Rattle.arrivals.specs.Replying.{replying};
ghost use Rattle.arrivals.specs.Arriving.{Carried, Replies, stated_in, six_for, arrive_as, arrive_by, arrival_for};

use crate::data::{arrive_data, is_unfit, reply_length};
use crate::replying::replying;
use channel::flow::{flow_ack_step, flow_step};
use channel::pulse::{heartbeat_ack_step, heartbeat_step};
use channel::record::RECEIVES;
use channel::step::refused;
use channel::{Channel, Node, Refusal, Stepped};
use packet::{Fields, Kind};
use receiver::Acked;
use table::{Decision, Sought};

// An Open, or else a Close, changes the record alone, and is acknowledged where the answer is 0 or 15. `opens` goes on to `control_step`, whose
// definition takes it.
#[inline(never)]
fn arrive_control(
    c: Channel,
    node: Node,
    opens: bool,
    of: Acked,
    number: u8,
    out: &mut [u8],
) -> Stepped
    requires { (Ringed c.limits c.window) × (fit_prefix c.addresses.own ≡ true) × (outgoing_length c.addresses (carries of c.limits) ≤ length out.old) }
    ensures { works result [] [] out.new ≡ replying node c of number (control_step c opens number) [] [] out.old }
{
    let s = receiver::control_step(c, opens, number);
    replying(&c, s, node, of, number, out)
}

// A Heartbeat changes nothing but the interval of this end's own, as it is acknowledged.
#[inline(never)]
fn arrive_heartbeat(c: Channel, node: Node, number: u8, out: &mut [u8]) -> Stepped
    requires { (c.limits.window ≤ 128) × (fit_prefix c.addresses.own ≡ true) × (outgoing_length c.addresses 0 ≤ length out.old) }
    ensures { works result [] [] out.new ≡ replying node c acked.Heartbeat number (heartbeat_step c) [] [] out.old }
{
    let s = heartbeat_step(c);
    replying(&c, s, node, Acked::Heartbeat, number, out)
}

// The number that an Ack or Flow Control states; 0 where it states none.
fn stated_in(payload: &[u8]) -> u8
    ensures { result ≡ stated_in payload.now }
{
    payload.first().copied().unwrap_or(0)
}

// Type 6: Flow Control at a sender, which changes the number recorded alone and is acknowledged, the Ack of it at a receiver.
#[inline(never)]
fn arrive_six(c: Channel, node: Node, number: u8, stated: u8, out: &mut [u8]) -> Stepped
    requires { (Ringed c.limits c.window) × (fit_prefix c.addresses.own ≡ true) × ((c.addresses.direction ≡ receives → ⊥) → outgoing_length c.addresses 0 ≤ length out.old) }
    ensures { works result [] [] out.new ≡ six_for node number stated c [] [] out.old }
{
    if c.addresses.direction == RECEIVES {
        return flow_ack_step(c, number);
    }
    let s = flow_step(c, stated);
    replying(&c, s, node, Acked::Flow, number, out)
}

// By the packet's kind.
fn arrive_as(
    kind: Kind,
    c: Channel,
    d: Decision,
    node: Node,
    f: Fields,
    payload: &[u8],
    mem: &mut [u8],
    lens: &mut [u16],
    out: &mut [u8],
) -> Stepped
    requires { (Served c d mem.old lens.old) × (Carried c f payload.now out.old) × (kind_of f.kind ≡ kind) × (Replies c kind (length payload.now) out.old) × (unfit c f (length payload.now) ≡ false) }
    ensures { works result mem.new lens.new out.new ≡ stepping (arrive_as kind node f payload.now) c d mem.old lens.old out.old }
{
    match kind {
        Kind::Data => arrive_data(c, d, node, f, payload, mem, lens, out),
        Kind::DataAck => sender_acks::data_ack_stated(c, f.number, stated_in(payload)),
        Kind::Open => arrive_control(c, node, true, Acked::Open, f.number, out),
        Kind::Close => arrive_control(c, node, false, Acked::Close, f.number, out),
        Kind::Heartbeat => arrive_heartbeat(c, node, f.number, out),
        Kind::HeartbeatAck => heartbeat_ack_step(c, f.number),
        Kind::FlowControl => arrive_six(c, node, f.number, stated_in(payload), out),
        Kind::ControlAck => sender_acks::control_ack_stated(c, f.number, stated_in(payload)),
        Kind::Lacking(_) => refused(c, Refusal::Lacking),
    }
}

// What only the channel tells is tested first: room for its reply, with the own prefix, and what it cannot take.
fn arrive(
    c: Channel,
    d: Decision,
    node: Node,
    f: Fields,
    payload: &[u8],
    mem: &mut [u8],
    lens: &mut [u16],
    out: &mut [u8],
) -> Stepped
    requires { (Served c d mem.old lens.old) × (Carried c f payload.now out.old) }
    ensures { works result mem.new lens.new out.new ≡ stepping (arrive_by node f (length payload.now) payload.now) c d mem.old lens.old out.old }
{
    let kind = Kind::from(f.kind);
    let wanted = reply_length(c, kind, payload.len());
    if out.len() < wanted {
        return refused(c, Refusal::Small(wanted));
    }
    if is_unfit(c, f, payload.len()) {
        return refused(c, Refusal::Strange);
    }
    arrive_as(kind, c, d, node, f, payload, mem, lens, out)
}

// The channel was found for this packet: nothing else is looked for in an arrival.
#[inline(never)]
pub fn arrive_step(
    c: Channel,
    d: Decision,
    node: Node,
    mem: &mut [u8],
    lens: &mut [u16],
    packet: &[u8],
    out: &mut [u8],
) -> Stepped
    requires { (Served c d mem.old lens.old) × (d.look ≡ look_of node packet.now (length out.old)) }
    ensures { works result mem.new lens.new out.new ≡ stepping (arrival_for node packet.now) c d mem.old lens.old out.old }
{
    let Sought::Packet {
        fields,
        start,
        length,
    } = d.look.sought
    else {
        return refused(c, Refusal::NoChannel);
    };
    arrive(
        c,
        d,
        node,
        fields,
        &packet[start..start + length],
        mem,
        lens,
        out,
    )
}
