// What an Ack states is recorded (document 02, A5), if it is taken.
// Each that is marked `inline(never)` stays a function of its own when it is compiled, so that a call takes the stack of its own step alone.
ghost use Rattle.std.specs.Prelude.{◌≡◌};
ghost use Rattle.channel.specs.Asked.{Ringed};
ghost use Rattle.sender_acks.specs.Stated.{is_taken, with_stated, data_ack_stated, control_ack_stated};

use crate::acks::{control_ack_step, data_ack_step};
use channel::flow::{note_first, note_stated};
use channel::record::OPEN;
use channel::{Answer, Channel, Pulse, Stepped};

fn is_taken(a: Answer) -> bool
    ensures { result ≡ is_taken a }
{
    matches!(a, Answer::Done { .. })
}

fn with_stated(s: Stepped, pulse: Pulse) -> Stepped
    ensures { result ≡ with_stated s pulse }
{
    Stepped {
        channel: Channel { pulse, ..s.channel },
        ..s
    }
}

// A Data Ack, with the number that it states.
#[inline(never)]
#[tactic(auto, unfolding(crate::specs::Stated::data_ack_stated))]
pub fn data_ack_stated(c: Channel, number: u8, stated: u8) -> Stepped
    requires { Ringed c.limits c.window }
    ensures { result ≡ data_ack_stated c number stated }
{
    let s = data_ack_step(c, number);
    if is_taken(s.answer) {
        let pulse = note_stated(c.limits, c.window, stated, s.channel.pulse);
        with_stated(s, pulse)
    } else {
        s
    }
}

// A Control Ack, with the number that it states: in OPEN the first number is recorded, elsewhere none.
#[inline(never)]
#[tactic(auto, unfolding(crate::specs::Stated::control_ack_stated))]
pub fn control_ack_stated(c: Channel, number: u8, stated: u8) -> Stepped
    requires { Ringed c.limits c.window }
    ensures { result ≡ control_ack_stated c number stated }
{
    let s = control_ack_step(c, number);
    if is_taken(s.answer) && s.channel.phase.state == OPEN {
        with_stated(s, note_first(stated, s.channel.pulse))
    } else {
        s
    }
}
