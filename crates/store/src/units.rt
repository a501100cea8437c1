// Where units end among the n segments from a place on, by their marks.
ghost use Rattle.std.specs.Prelude.{◌≡◌, ◌<◌, ◌≤◌};
ghost use Rattle.slots.specs.Marks.{ends};
ghost use Rattle.store.specs.Store.{unit_of, ends_in, last_end_in};

use slots::ring;

// The segment of a mark ends a unit.
fn is_end(mark: u8) -> bool
    ensures { result ≡ ends mark }
{
    3 <= mark
}

// How many segments there are up to and with the first that ends a unit; n if none does.
pub fn unit_of(marks: [u8; 128], slots: usize, n: usize, from: usize) -> usize
    requires { (from < slots) × (slots ≤ 128) }
    ensures { result ≡ unit_of marks slots n from }
{
    let mut s = from;
    for i in 0..n {
        if is_end(marks[s]) {
            return i + 1;
        }
        s = ring::round(s + 1, slots);
    }
    n
}

// How many of them end a unit.
pub fn ends_in(marks: [u8; 128], slots: usize, n: usize, from: usize) -> usize
    requires { (from < slots) × (slots ≤ 128) }
    ensures { result ≡ ends_in marks slots n from }
{
    let mut count: usize = 0;
    let mut s = from;
    for _i in 0..n {
        if is_end(marks[s]) {
            count += 1;
        }
        s = ring::round(s + 1, slots);
    }
    count
}

// How many there are up to and with the last that ends a unit; 0 if none does.
pub fn last_end_in(marks: [u8; 128], slots: usize, n: usize, from: usize) -> usize
    requires { (from < slots) × (slots ≤ 128) }
    ensures { result ≡ last_end_in marks slots n from }
{
    let mut last: usize = 0;
    let mut s = from;
    for i in 0..n {
        if is_end(marks[s]) {
            last = i + 1;
        }
        s = ring::round(s + 1, slots);
    }
    last
}
