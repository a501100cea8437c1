// Where the number of an arriving Data packet lies: new, held already, behind the window, or none of these.
ghost use Rattle.std.specs.Prelude.{◌≡◌, ◌<◌};
ghost use Rattle.channel.specs.Asked.{Ringed};
ghost use Rattle.receiver_data.specs.Sorting.{distance, is_held, sort_at};

use channel::{Limits, Window};
use slots::ring;

#[derive(Clone, Copy)]
pub enum Sort {
    New,
    Held,
    Behind,
    Other,
}

// How far past the start a number lies. Numbers go round at 256, so the number 0 follows 255 and is a number like any other.
pub fn away(number: u8, start: u8) -> u8
    ensures { result ≡ distance number start }
{
    number.wrapping_sub(start)
}

// The d-th number of the window is held. Where there is no room for it, its place is an older segment's, whose mark says nothing
// of it.
#[tactic(auto, using(slots::proofs::RingLaws::round_lt), unfolding(crate::specs::Sorting::is_held))]
fn is_held(l: Limits, w: Window, marks: [u8; 128], d: usize) -> bool
    requires { (Ringed l w) × (d < 256) }
    ensures { result ≡ is_held l w marks d }
{
    w.behind + d < l.slots && marks[ring::round(w.place + d, l.slots)] != 0
}

// A repeat behind the window is told from a number that was never sent: it is acknowledged again, for its ack may be lost.
#[tactic(auto, unfolding(crate::specs::Sorting::sort_at))]
pub fn sort_at(l: Limits, w: Window, marks: [u8; 128], d: usize) -> Sort
    requires { (Ringed l w) × (d < 256) }
    ensures { result ≡ sort_at l w marks d }
{
    if d < l.window {
        if is_held(l, w, marks, d) {
            Sort::Held
        } else {
            Sort::New
        }
    } else if 256 - l.window <= d {
        Sort::Behind
    } else {
        Sort::Other
    }
}
