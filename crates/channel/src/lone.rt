// One packet that is sent alone, with its timer and its retries (document 01, Sending): ready, handed out, ready again.
ghost use Rattle.std.specs.Prelude.{◌≡◌};
ghost use Rattle.channel.specs.Lone.{is_ready, is_out, handed_out, fallen};

use crate::record::Lone;

// Its states: numbers, as all that a lent record holds.
pub(crate) const NONE: u8 = 0;

const READY: u8 = 1;

const OUT: u8 = 2;

pub(crate) const AGAIN: u8 = 3;

// The packet after a tick, and whether its timer ended with its retries used up. It is no `Option`: the definition `beaten_by` takes the packet on in
// either case.
#[derive(Clone, Copy)]
pub struct Fallen {
    pub lone: Lone,
    pub spent: bool,
}

// It can be handed out.
pub fn is_ready(l: Lone) -> bool
    ensures { result ≡ is_ready l }
{
    l.state == READY || l.state == AGAIN
}

// It was handed out, and an ack is awaited, also while it waits to be resent.
pub fn is_out(l: Lone) -> bool
    ensures { result ≡ is_out l }
{
    l.state == OUT || l.state == AGAIN
}

// Its timer starts at the timeout. The retries are the resends allowed to it.
pub fn hand_out(l: Lone, timeout: u16, retries: u16) -> Lone
    ensures { result ≡ handed_out l timeout retries }
{
    let tries = if l.state == AGAIN {
        l.tries.saturating_sub(1)
    } else {
        retries
    };
    Lone {
        state: OUT,
        timer: timeout,
        tries,
    }
}

// One tick.
#[tactic(auto, unfolding(crate::specs::Lone::fallen))]
pub fn fall(l: Lone) -> Fallen
    ensures { result ≡ fallen l }
{
    let (lone, spent) = match l.state {
        OUT if 2 <= l.timer => (
            Lone {
                timer: l.timer - 1,
                ..l
            },
            false,
        ),
        OUT if l.tries == 0 => (Lone::NONE, true),
        OUT => (
            Lone {
                state: AGAIN,
                timer: 0,
                ..l
            },
            false,
        ),
        _ => (l, false),
    };
    Fallen { lone, spent }
}
