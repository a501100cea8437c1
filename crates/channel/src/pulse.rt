// The Heartbeat of an end, the same at both (document 02, A2): the interval, and the Heartbeat that is made when it ends; and what arrives.
ghost use Rattle.std.specs.Prelude.{◌≡◌};
ghost use Rattle.channel.specs.Pulse.{started_pulse, sent_in, next_beat, paced, beaten, heartbeat_step, heartbeat_ack_step};

use crate::answer::Refusal;
use crate::lone::{Fallen, NONE, fall, is_out};
use crate::record::{Channel, Limits, Lone, OPEN, Pulse};
use crate::step::{Stepped, done, outgoing_length, refused};

// The pulse after a tick, and whether its Heartbeat's timer ended with its retries used up. It is no `Option`: the pulse is told in either case, by the
// definition `beaten_by` and the theorem `beaten_keeps`.
#[derive(Clone, Copy)]
pub struct Beaten {
    pub pulse: Pulse,
    pub spent: bool,
}

// On entering OPEN.
pub fn start(l: Limits) -> Pulse
    ensures { result ≡ started_pulse l }
{
    Pulse {
        left: l.interval,
        ..Pulse::NONE
    }
}

// In a state, once the channel has sent Data or an Ack: this end is heard of, so that its interval starts anew. A Heartbeat that was made stays. It takes
// the parts that it looks at, and not the record: a copy of that costs stack.
pub fn sent(state: u8, l: Limits, p: Pulse) -> Pulse
    ensures { result ≡ sent_in state l p }
{
    if state != OPEN {
        return p;
    }
    Pulse {
        left: l.interval,
        ..p
    }
}

// All Heartbeats are numbered 0: while one is unanswered a second could not be told from it.
fn next_beat(l: Lone) -> Lone
    ensures { result ≡ next_beat l }
{
    if l.state == NONE { Lone::READY } else { l }
}

// The interval falls; as it ends, a Heartbeat is made, and it starts anew.
#[tactic(auto, unfolding(crate::specs::Pulse::paced))]
fn pace(l: Limits, p: Pulse) -> Pulse
    ensures { result ≡ paced l p }
{
    match p.left {
        0 => p,
        1 => Pulse {
            left: l.interval,
            beat: next_beat(p.beat),
            ..p
        },
        left => Pulse {
            left: left - 1,
            ..p
        },
    }
}

// A tick: the Heartbeat's timer, then the interval.
pub fn tick(l: Limits, p: Pulse) -> Beaten
    ensures { result ≡ beaten l p }
{
    let Fallen { lone: beat, spent } = fall(p.beat);
    Beaten {
        pulse: pace(l, Pulse { beat, ..p }),
        spent,
    }
}

// A Heartbeat arrives: it is answered in OPEN, whatever its number.
#[tactic(auto, unfolding(crate::specs::Pulse::heartbeat_step))]
pub fn heartbeat_step(c: Channel) -> Stepped
    ensures { result ≡ heartbeat_step c }
{
    if c.phase.state != OPEN {
        return refused(c, Refusal::State);
    }
    done(c, outgoing_length(c.addresses, 0))
}

// The Ack of this end's own Heartbeat.
#[tactic(auto, unfolding(crate::specs::Pulse::heartbeat_ack_step))]
pub fn heartbeat_ack_step(c: Channel, number: u8) -> Stepped
    ensures { result ≡ heartbeat_ack_step c number }
{
    if c.phase.state != OPEN {
        return refused(c, Refusal::State);
    }
    if number != 0 || !is_out(c.pulse.beat) {
        return refused(c, Refusal::Ignored);
    }
    let mut d = c;
    d.pulse.beat = Lone::NONE;
    done(d, 0)
}
