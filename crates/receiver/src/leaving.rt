// A channel leaves OPEN: complete units stay to be taken (house), unfinished ones and segments past the start are dropped, and so are the Heartbeat
// and Flow Control.
ghost use Rattle.std.specs.Prelude.{◌≡◌};
ghost use Rattle.channel.specs.Steps.{repeating, failing, outgoing_length};
ghost use Rattle.channel.specs.Asked.{Ringed};
ghost use Rattle.receiver.specs.Receiving.{stated_count, ack_length, leaving, shut_for};

use crate::acks::stated_count;
use channel::record::CLOSED;
use channel::step::{outgoing_length, unchanged};
use channel::{Addresses, Answer, Channel, Limits, Pulse, Stepped};
use slots::ring;

// The octets of an ack of Data or Control: it carries the own prefix, and where Flow Control is used the number stated.
pub fn ack_length(a: Addresses, l: Limits) -> usize
    ensures { result ≡ outgoing_length a (stated_count l) }
{
    outgoing_length(a, stated_count(l))
}

// Into another state, with the close timer at so many ticks. What is kept ends where the unit on the way begins.
#[tactic(auto, using(slots::proofs::RingLaws::back_lt), unfolding(crate::specs::Receiving::leaving))]
pub fn leave(c: Channel, state: u8, ticks: u16) -> Channel
    requires { Ringed c.limits c.window }
    ensures { result ≡ leaving c state ticks }
{
    let slots = c.limits.slots;
    let kept = c.window.behind - c.window.way;
    let place = ring::back(slots, c.window.place, c.window.way);
    let mut d = c;
    d.phase.state = state;
    d.pulse = Pulse::NONE;
    d.window.start = 1;
    d.window.place = place;
    d.window.behind = kept;
    d.window.way = 0;
    d.timers.closing = ticks;
    d.marks = ring::clear(c.marks, slots, slots - kept, place);
    d
}

// Inactive: CLOSED, and the record says why.
pub fn shut(c: Channel, why: u8) -> Channel
    requires { Ringed c.limits c.window }
    ensures { result ≡ shut_for c why }
{
    let mut d = leave(c, CLOSED, 0);
    d.phase.reason = why;
    d
}

// The answer of a step that makes the channel inactive: no ack goes out.
pub fn failed(c: Channel, why: u8) -> Stepped
    requires { Ringed c.limits c.window }
    ensures { result ≡ failing (shut_for c why) why }
{
    Stepped {
        channel: shut(c, why),
        answer: Answer::Inactive(why),
    }
}

// Acknowledged once more, and nothing has changed.
pub fn repeated(c: Channel) -> Stepped
    ensures { result ≡ repeating c (ack_length c) }
{
    unchanged(
        c,
        Answer::Repeated {
            length: ack_length(c.addresses, c.limits),
        },
    )
}
