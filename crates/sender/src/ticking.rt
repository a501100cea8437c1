// A tick at a transmit end, and how a timer falls.
ghost use Rattle.std.specs.Prelude.{◌≡◌, map};
ghost use Rattle.std.specs.List.{zip, list_any};
ghost use Rattle.sender.specs.Ticking.{lowered, spent_now, control_tick, beat_tick, data_tick, tick_step};
ghost use Rattle.channel.specs.Lone.{fallen};
ghost use Rattle.channel.specs.Pulse.{beaten};
ghost use Rattle.channel.specs.Asked.{Ringed};

use crate::directives::shut;
use channel::lone::fall;
use channel::record::{CLOSING, ENABLED, OPEN, RETRIES, UNANSWERED};
use channel::{Channel, Ticked, Timers, pulse};

// Each timer that runs falls by one; 0 is one that does not run. By `map` of the array a tick took 0.46 microseconds where it takes 0.12.
fn lower_all(left: [u16; 128]) -> [u16; 128]
    ensures { result ≡ map lowered left }
{
    let mut out = left;
    for ticks in out.iter_mut() {
        *ticks = ticks.saturating_sub(1);
    }
    out
}

// Some timer ends in this tick, and no resend is left to its segment.
fn any_spent(left: &[u16; 128], tries: &[u16; 128]) -> bool
    ensures { result ≡ list_any (λ p. spent_now p.0 p.1) (zip left.now tries.now) }
{
    left.iter()
        .zip(tries)
        .any(|(left, tries)| *left == 1 && *tries == 0)
}

// The Heartbeat's timer falls, and the interval. A Heartbeat that gets no answer closes the channel, as a segment does, with a reason of its own.
fn beat_tick(c: Channel) -> Ticked
    requires { Ringed c.limits c.window }
    ensures { result ≡ beat_tick c (beaten c.limits c.pulse) }
{
    let beaten = pulse::tick(c.limits, c.pulse);
    if beaten.spent {
        return Ticked {
            channel: shut(c, UNANSWERED),
            inactive: true,
        };
    }
    Ticked {
        channel: Channel {
            pulse: beaten.pulse,
            ..c
        },
        inactive: false,
    }
}

// In OPEN the segments' timers fall, and then the Heartbeat's. A timer that reaches 0 makes its segment ready again, for a segment in flight that is not
// acknowledged and whose timer does not run is to be resent.
fn data_tick(c: Channel) -> Ticked
    requires { Ringed c.limits c.window }
    ensures { result ≡ data_tick c }
{
    if any_spent(&c.timers.left, &c.timers.tries) {
        return Ticked {
            channel: shut(c, RETRIES),
            inactive: true,
        };
    }
    beat_tick(Channel {
        timers: Timers {
            left: lower_all(c.timers.left),
            ..c.timers
        },
        ..c
    })
}

// In ENABLED and CLOSING the control packet's timer falls.
fn control_tick(c: Channel) -> Ticked
    requires { Ringed c.limits c.window }
    ensures { result ≡ control_tick c (fallen c.phase.control) }
{
    let fallen = fall(c.phase.control);
    if fallen.spent {
        return Ticked {
            channel: shut(c, RETRIES),
            inactive: true,
        };
    }
    let mut d = c;
    d.phase.control = fallen.lone;
    Ticked {
        channel: d,
        inactive: false,
    }
}

#[tactic(auto, unfolding(crate::specs::Ticking::tick_step))]
pub fn tick_step(c: Channel) -> Ticked
    requires { Ringed c.limits c.window }
    ensures { result ≡ tick_step c }
{
    match c.phase.state {
        OPEN => data_tick(c),
        ENABLED | CLOSING => control_tick(c),
        _ => Ticked {
            channel: c,
            inactive: false,
        },
    }
}
