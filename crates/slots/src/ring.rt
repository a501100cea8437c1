// The ring of slots: places, and runs of marks that go round it. A ring has at most 128 slots; a mark is set where it is not 0.
ghost use Rattle.std.specs.Prelude.{◌≡◌, ◌<◌, ◌≤◌};
ghost use Rattle.slots.specs.Ring.{round_of, back_of, run_of, cleared};

use super::packed::row;

// A place on the ring, at most one turn past its end. A walk, here and in the crates above, takes the next place by it beside the index of its `for`: so the
// definitions go, and a walk may be longer than a turn, where the first place and the index are no place together.
#[tactic(auto, unfolding(crate::specs::Ring::round_of))]
pub fn round(x: usize, slots: usize) -> usize
    ensures { result ≡ round_of slots x }
{
    if x < slots { x } else { x - slots }
}

// The place n before.
#[tactic(auto, unfolding(crate::specs::Ring::back_of))]
pub fn back(slots: usize, place: usize, n: usize) -> usize
    requires { (place < slots) × (n ≤ slots) × (slots ≤ 128) }
    ensures { result ≡ back_of slots place n }
{
    round(place + (slots - n), slots)
}

// Of the n marks from a place on, how many are set before the first that is not.
pub fn run(marks: &[u8; 128], slots: usize, n: usize, from: usize) -> usize
    requires { (from < slots) × (slots ≤ 128) }
    ensures { result ≡ run_of marks.now slots n from }
{
    let mut count = 0;
    let mut s = from;
    // The straight spans are not of one length, so no range counts them.
    while count < n {
        let span = (n - count).min(slots - s);
        let k = row(marks, s, span);
        if k < span {
            return count + k;
        }
        count += span;
        s = round(s + span, slots);
    }
    count
}

// The n marks from a place on are cleared.
pub fn clear(mut marks: [u8; 128], slots: usize, n: usize, from: usize) -> [u8; 128]
    requires { (from < slots) × (slots ≤ 128) }
    ensures { result ≡ cleared marks slots n from }
{
    let mut s = from;
    for _ in 0..n {
        marks[s] = 0;
        s = round(s + 1, slots);
    }
    marks
}
