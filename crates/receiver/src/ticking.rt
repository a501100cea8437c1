// A tick: in OPEN Flow Control and the Heartbeat; in CLOSING the close timer falls, and its end leads to CLOSED.
ghost use Rattle.std.specs.Prelude.{◌≡◌};
ghost use Rattle.channel.specs.Asked.{Ringed};
ghost use Rattle.channel.specs.Lone.{fallen};
ghost use Rattle.channel.specs.Pulse.{beaten};
ghost use Rattle.receiver.specs.Receiving.{close_tick, beat_tick, flow_tick, tick_step};

use crate::leaving::shut;
use channel::flow::{with_flow, with_packet};
use channel::lone::fall;
use channel::record::{CLOSED, CLOSING, OPEN, RETRIES, UNANSWERED};
use channel::{Channel, Ticked, pulse};

fn close_tick(c: Channel) -> Channel
    ensures { result ≡ close_tick c }
{
    let mut d = c;
    if 2 <= c.timers.closing {
        d.timers.closing -= 1;
    } else {
        d.timers.closing = 0;
        d.phase.state = CLOSED;
    }
    d
}

// The Heartbeat's timer falls, and the interval. A Heartbeat that gets no answer closes the channel: what was taken in complete stays.
fn beat_tick(c: Channel) -> Ticked
    requires { Ringed c.limits c.window }
    ensures { result ≡ beat_tick c (beaten c.limits c.pulse) }
{
    let beaten = pulse::tick(c.limits, c.pulse);
    if beaten.spent {
        return Ticked {
            channel: shut(c, UNANSWERED),
            inactive: true,
        };
    }
    Ticked {
        channel: Channel {
            pulse: beaten.pulse,
            ..c
        },
        inactive: false,
    }
}

// Flow Control's timer falls, then the Heartbeat's. That its retries are used up closes the channel as any packet's do.
fn flow_tick(c: Channel) -> Ticked
    requires { Ringed c.limits c.window }
    ensures { result ≡ flow_tick c (fallen c.pulse.flow.packet) }
{
    let fallen = fall(c.pulse.flow.packet);
    if fallen.spent {
        return Ticked {
            channel: shut(c, RETRIES),
            inactive: true,
        };
    }
    let pulse = with_flow(c.pulse, with_packet(c.pulse.flow, fallen.lone));
    beat_tick(Channel { pulse, ..c })
}

#[tactic(auto, unfolding(crate::specs::Receiving::tick_step))]
pub fn tick_step(c: Channel) -> Ticked
    requires { Ringed c.limits c.window }
    ensures { result ≡ tick_step c }
{
    match c.phase.state {
        OPEN => flow_tick(c),
        CLOSING => Ticked {
            channel: close_tick(c),
            inactive: false,
        },
        _ => Ticked {
            channel: c,
            inactive: false,
        },
    }
}
