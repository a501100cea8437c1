// Flow Control of a channel (document 02, A5): the number that a receiver states, the packet that tells it, and the number that a sender has recorded
// and obeys.
ghost use Rattle.std.specs.Prelude.{◌≡◌, ◌≤◌, ◌&&◌, ◌||◌, nat_le, nat_lt};
ghost use Rattle.channel.specs.Flow.{acceptable, stated, with_flow, flow_with, told_by, telling_in, telling, with_packet, flow_number, first_stated, flow_out, last_is, replied_in, answered_by, flow_ack_step, highest, recorded_by, recording, recorded_first, may_follow, flow_step};

use crate::answer::Refusal;
use crate::lone::{AGAIN, NONE, hand_out, is_out};
use crate::record::{Channel, Flow, Limits, Lone, OPEN, Pulse, Window};
use crate::step::{Stepped, done, outgoing_length, refused};

// How many numbers from the start on a receiver accepts: those of the window for which there is a slot that is not kept.
fn accepts(l: Limits, w: Window) -> usize
    ensures { result ≡ acceptable l w }
{
    l.window.min(l.slots.saturating_sub(w.behind))
}

// The number that a receiver states: the highest that it accepts, or the start less 1 if it accepts none.
pub fn number_stated(l: Limits, w: Window) -> u8
    requires { l.window ≤ 128 }
    ensures { result ≡ stated l w }
{
    w.start.wrapping_add(accepts(l, w) as u8).wrapping_sub(1)
}

pub fn with_flow(p: Pulse, flow: Flow) -> Pulse
    ensures { result ≡ with_flow p flow }
{
    Pulse { flow, ..p }
}

fn flow_with(packet: Lone, f: Flow) -> Flow
    ensures { result ≡ flow_with packet f }
{
    Flow {
        packet,
        number: 0,
        stated: 0,
        ..f
    }
}

// The number stated was one and is another: Flow Control tells it, unless one is ready or unanswered.
fn told(before: u8, after: u8, f: Flow) -> Flow
    ensures { result ≡ told_by before after f }
{
    if f.packet.state == NONE && before != after {
        flow_with(Lone::READY, f)
    } else {
        f
    }
}

// After a take, by the windows before and after it. It takes the parts that it looks at, and not the record: a copy of that costs stack.
fn tell(state: u8, l: Limits, before: Window, after: Window, p: Pulse) -> Pulse
    requires { l.window ≤ 128 }
    ensures { result ≡ telling_in state l before after p }
{
    if state != OPEN || l.flow == 0 {
        return p;
    }
    let flow = told(number_stated(l, before), number_stated(l, after), p.flow);
    Pulse { flow, ..p }
}

// The channel after a take, with the window before it.
pub fn tell_in(before: Window, c: Channel) -> Channel
    requires { c.limits.window ≤ 128 }
    ensures { result ≡ telling before c }
{
    let pulse = tell(c.phase.state, c.limits, before, c.window, c.pulse);
    Channel { pulse, ..c }
}

// Its timer has fallen.
pub fn with_packet(f: Flow, packet: Lone) -> Flow
    ensures { result ≡ with_packet f packet }
{
    Flow { packet, ..f }
}

// The number of Flow Control that goes out: that of the last packet sent, and of a resend its own.
pub fn flow_number(f: Flow) -> u8
    ensures { result ≡ flow_number f }
{
    if f.packet.state == AGAIN {
        f.number
    } else {
        f.last
    }
}

// What it stated when it was first handed out: a resend may get lost that states more, while the Ack of an earlier one comes.
fn first_stated(f: Flow, now: u8) -> u8
    ensures { result ≡ first_stated now f }
{
    if f.packet.state == AGAIN {
        f.stated
    } else {
        now
    }
}

// Handed out, with the number stated now.
pub fn out(l: Limits, now: u8, f: Flow) -> Flow
    ensures { result ≡ flow_out l now f }
{
    let number = flow_number(f);
    Flow {
        packet: hand_out(f.packet, l.timeout, l.retries),
        number,
        stated: first_stated(f, now),
        last: number,
        ..f
    }
}

// A packet with a number was sent.
pub fn last_is(number: u8, f: Flow) -> Flow
    ensures { result ≡ last_is number f }
{
    Flow { last: number, ..f }
}

// An Ack with a number was written: in OPEN it is the last packet, and the interval of the Heartbeat starts anew.
pub fn replied(state: u8, l: Limits, number: u8, p: Pulse) -> Pulse
    ensures { result ≡ replied_in state l number p }
{
    if state != OPEN {
        return p;
    }
    Pulse {
        left: l.interval,
        flow: last_is(number, p.flow),
        ..p
    }
}

// Its Ack came: another is ready if the number stated now is not the one that it stated first.
fn answered(now: u8, f: Flow) -> Flow
    ensures { result ≡ answered_by now f }
{
    let packet = if now == f.stated {
        Lone::NONE
    } else {
        Lone::READY
    };
    flow_with(packet, f)
}

// The Ack of Flow Control arrives.
#[tactic(auto, unfolding(crate::specs::Flow::flow_ack_step))]
pub fn flow_ack_step(c: Channel, number: u8) -> Stepped
    requires { c.limits.window ≤ 128 }
    ensures { result ≡ flow_ack_step c number }
{
    if c.phase.state != OPEN {
        return refused(c, Refusal::State);
    }
    if number != c.pulse.flow.number || !is_out(c.pulse.flow.packet) {
        return refused(c, Refusal::Ignored);
    }
    let mut d = c;
    d.pulse.flow = answered(number_stated(c.limits, c.window), c.pulse.flow);
    done(d, 0)
}

// The highest number sent.
fn highest_sent(w: Window) -> u8
    requires { w.flight ≤ 128 }
    ensures { result ≡ highest w }
{
    w.start.wrapping_add(w.flight as u8).wrapping_sub(1)
}

// Of a number stated and the one recorded, so far past the highest sent: it is taken within the window and not below, unless the one recorded lies outside.
fn is_recorded(window: usize, old: u8, number: u8) -> bool
    ensures { result ≡ (nat_le number window && (nat_lt window old || nat_le old number)) }
{
    usize::from(number) <= window && (window < usize::from(old) || old <= number)
}

fn recorded_by(l: Limits, w: Window, old: u8, number: u8) -> u8
    requires { w.flight ≤ 128 }
    ensures { result ≡ recorded_by l w old number }
{
    let high = highest_sent(w);
    if is_recorded(l.window, old.wrapping_sub(high), number.wrapping_sub(high)) {
        number
    } else {
        old
    }
}

// What an Ack of Data, or Flow Control, states.
pub fn note_stated(l: Limits, w: Window, number: u8, p: Pulse) -> Pulse
    requires { w.flight ≤ 128 }
    ensures { result ≡ recording l w number p }
{
    if l.flow == 0 {
        return p;
    }
    let mut q = p;
    q.flow.recorded = recorded_by(l, w, p.flow.recorded, number);
    q
}

// What the Ack of the Open states.
pub fn note_first(number: u8, p: Pulse) -> Pulse
    ensures { result ≡ recorded_first number p }
{
    let mut q = p;
    q.flow.recorded = number;
    q
}

// The next new number is at most the one recorded.
pub fn may_follow(l: Limits, w: Window, recorded: u8) -> bool
    ensures { result ≡ may_follow l w recorded }
{
    let ahead = recorded.wrapping_sub(w.start);
    l.flow == 0 || (ahead < 128 && w.flight <= usize::from(ahead))
}

// Flow Control arrives: it is answered in OPEN, whatever its number.
#[tactic(auto, unfolding(crate::specs::Flow::flow_step))]
pub fn flow_step(c: Channel, number: u8) -> Stepped
    requires { c.window.flight ≤ 128 }
    ensures { result ≡ flow_step c number }
{
    if c.phase.state != OPEN {
        return refused(c, Refusal::State);
    }
    let pulse = note_stated(c.limits, c.window, number, c.pulse);
    done(Channel { pulse, ..c }, outgoing_length(c.addresses, 0))
}
