// The window start moves past every leading number held. Flags are looked at only there: a segment beyond a gap may not yet have
// what stands before it.
ghost use Rattle.std.specs.Prelude.{◌≡◌, ◌+◌, ◌%◌, ◌≤◌, not, nat_eq, if◌then◌else◌};
ghost use Rattle.slots.specs.Marks.{begins};
ghost use Rattle.channel.specs.Asked.{Ringed};
ghost use Rattle.receiver_data.specs.Moving.{fitting, way_after, passed, moved_of};

use channel::{Limits, Window};
use slots::ring;

// The window after the move, and whether the flags broke it off. Both count at a break: the record keeps the window, as `accept_step` has it.
#[derive(Clone, Copy)]
pub struct Moved {
    pub window: Window,
    pub broken: bool,
}

// The next segment in order fits the unit on the way, which has so many already: it begins a unit where none is on the way, and only there; and a
// unit's M-th segment ends it.
#[tactic(auto, unfolding(crate::specs::Moving::fitting))]
fn fits(most: usize, way: usize, mark: u8) -> bool
    requires { way ≤ 128 }
    ensures { result ≡ fitting most way mark }
{
    (way == 0) == (mark % 2 == 0) && (3 <= mark || way + 1 < most)
}

// The start past one segment. The number 0 follows 255 also for Data: it is not kept for Control.
fn pass(slots: usize, w: Window, mark: u8) -> Window
    requires { (w.place ≤ 128) × (w.behind ≤ 128) × (w.way ≤ 128) }
    ensures { result ≡ passed slots w mark }
{
    Window {
        start: w.start.wrapping_add(1),
        place: ring::round(w.place + 1, slots),
        behind: w.behind + 1,
        way: if 3 <= mark { 0 } else { w.way + 1 },
        ..w
    }
}

// As far as marks lead on, by the routine that moves a sender's start too; each segment on the way must fit. Not past the slots: with every
// slot kept, the next place is the oldest segment's.
pub fn move_start(l: Limits, marks: [u8; 128], w: Window) -> Moved
    requires { Ringed l w }
    ensures { result ≡ moved_of l marks w }
{
    let n = ring::run(&marks, l.slots, l.slots - w.behind, w.place);
    let mut at = w;
    for _i in 0..n {
        let mark = marks[at.place];
        if !fits(l.segments, at.way, mark) {
            return Moved {
                window: at,
                broken: true,
            };
        }
        at = pass(l.slots, at, mark);
    }
    Moved {
        window: at,
        broken: false,
    }
}
