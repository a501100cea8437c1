// Directives at a transmit end, and what leaving OPEN keeps.
ghost use Rattle.std.specs.Prelude.{◌≡◌};
ghost use Rattle.channel.specs.Asked.{Ringed};
ghost use Rattle.sender.specs.Directives.{parked, shut_for, open_step, close_step};

use channel::record::{CLOSED, CLOSING, ENABLED, OPEN};
use channel::step::{done, enabled, refused};
use channel::{Channel, Lone, Phase, Pulse, Refusal, Stepped, Window};
use slots::ring;

// The channel leaves OPEN, or goes on from a state in which it sends no Data. No unconfirmed unit is discarded (house): what is held
// begins again at the oldest segment, also those that were acknowledged, no segment is in flight, and no Heartbeat is made or awaited.
#[tactic(auto, unfolding(crate::specs::Directives::parked))]
pub fn park(c: Channel, state: u8, control: Lone) -> Channel
    requires { Ringed c.limits c.window }
    ensures { result ≡ parked c state control }
{
    Channel {
        phase: Phase {
            state,
            control,
            kept: 0,
            ..c.phase
        },
        pulse: Pulse::NONE,
        window: Window {
            place: ring::back(c.limits.slots, c.window.place, c.window.behind),
            ahead: c.window.behind + c.window.ahead,
            way: c.window.way,
            ..Window::FRESH
        },
        ..c
    }
}

// Inactive: CLOSED, and the record says why.
pub fn shut(c: Channel, why: u8) -> Channel
    requires { Ringed c.limits c.window }
    ensures { result ≡ shut_for c why }
{
    let mut d = park(c, CLOSED, Lone::NONE);
    d.phase.reason = why;
    d
}

// An Open directive. Units of the last opening that are not reclaimed would be lost, so it is refused while there are any.
#[tactic(auto, unfolding(crate::specs::Directives::open_step))]
pub fn open_step(c: Channel) -> Stepped
    requires { Ringed c.limits c.window }
    ensures { result ≡ open_step c }
{
    if c.phase.state != CLOSED {
        return refused(c, Refusal::State);
    }
    if c.window.behind + c.window.ahead != 0 {
        return refused(c, Refusal::Untaken);
    }
    done(enabled(c, Lone::READY), 0)
}

// A Close directive. In ENABLED it is kept, for the other end does not take a Close before the Open.
#[tactic(auto, unfolding(crate::specs::Directives::close_step))]
pub fn close_step(c: Channel) -> Stepped
    requires { Ringed c.limits c.window }
    ensures { result ≡ close_step c }
{
    if c.phase.state == OPEN {
        return done(park(c, CLOSING, Lone::READY), 0);
    }
    if c.phase.state != ENABLED || c.phase.kept != 0 {
        return refused(c, Refusal::State);
    }
    let mut d = c;
    d.phase.kept = 1;
    done(d, 0)
}
