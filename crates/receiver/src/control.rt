// Directives, and the Control packets that open and close the channel.
ghost use Rattle.std.specs.Prelude.{◌≡◌};
ghost use Rattle.channel.specs.Asked.{Ringed};
ghost use Rattle.receiver.specs.Receiving.{open_step, close_step, open_arrives, close_arrives, control_step};

use crate::leaving::{ack_length, failed, leave, repeated};
use channel::record::{CLOSED, CLOSING, CONTROL_NUMBER, ENABLED, LATE_OPEN, OPEN};
use channel::step::{done, enabled, refused};
use channel::{Channel, Lone, Refusal, Stepped, pulse};

// An Open directive. Units that are not yet taken would be lost: they refuse it.
#[tactic(auto, unfolding(crate::specs::Receiving::open_step))]
pub fn open_step(c: Channel) -> Stepped
    ensures { result ≡ open_step c }
{
    if c.phase.state != CLOSED {
        return refused(c, Refusal::State);
    }
    if c.window.behind != 0 || c.window.ahead != 0 {
        return refused(c, Refusal::Untaken);
    }
    done(enabled(c, Lone::NONE), 0)
}

// A Close directive: only a sender closes.
pub fn close_step(c: Channel) -> Stepped
    ensures { result ≡ close_step c }
{
    refused(c, Refusal::State)
}

// An Open arrives. After Data was accepted it is no repeat: the other end has begun anew.
#[tactic(auto, unfolding(crate::specs::Receiving::open_arrives))]
fn open_arrives(c: Channel) -> Stepped
    requires { Ringed c.limits c.window }
    ensures { result ≡ open_arrives c }
{
    match c.phase.state {
        ENABLED => {
            let mut d = c;
            d.phase.state = OPEN;
            d.pulse = pulse::start(c.limits);
            done(d, ack_length(c.addresses, c.limits))
        }
        OPEN if c.phase.accepted == 0 => repeated(c),
        OPEN => failed(c, LATE_OPEN),
        _ => refused(c, Refusal::State),
    }
}

// A Close arrives.
#[tactic(auto, unfolding(crate::specs::Receiving::close_arrives))]
fn close_arrives(c: Channel) -> Stepped
    requires { Ringed c.limits c.window }
    ensures { result ≡ close_arrives c }
{
    match c.phase.state {
        OPEN => done(
            leave(c, CLOSING, c.limits.closing),
            ack_length(c.addresses, c.limits),
        ),
        CLOSING => repeated(c),
        _ => refused(c, Refusal::State),
    }
}

// An Open, or else a Close, arrives, with its number. `opens` and no enum: the definition `control_step` tells the two by it, and `arrive_as` of
// `arrivals` gives it.
#[tactic(auto, unfolding(crate::specs::Receiving::control_step))]
pub fn control_step(c: Channel, opens: bool, number: u8) -> Stepped
    requires { Ringed c.limits c.window }
    ensures { result ≡ control_step c opens number }
{
    if c.phase.state == CLOSED {
        return refused(c, Refusal::State);
    }
    if number != 0 {
        return failed(c, CONTROL_NUMBER);
    }
    if opens {
        open_arrives(c)
    } else {
        close_arrives(c)
    }
}
