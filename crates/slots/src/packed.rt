// Marks in a row, eight at a time: packed into one word of the machine, where the processor counts the leading run of those that are set.
ghost use Rattle.std.specs.Prelude.{◌≡◌, ◌+◌, ◌≤◌, ◌<◌, length};
ghost use Rattle.slots.specs.Packed.{word_of, row_of};

// All bits of each octet but the highest.
const LOW: u64 = 0x7F7F_7F7F_7F7F_7F7F;

// Of the n marks from a place on, in a row, how many are set before the first that is not. The sum reaches the highest bit of an octet where
// another bit is set, so the complement has that bit alone, and where the mark is not set. A word may go past the n marks: what it finds there
// does not count.
pub fn row(marks: &[u8], from: usize, n: usize) -> usize
    requires { (8 ≤ length marks.now) × (from + n ≤ length marks.now) }
    ensures { result ≡ row_of marks.now n from }
{
    for count in (0..n).step_by(8) {
        let w = eight_from(marks, from + count);
        let unset = !(((w & LOW) + LOW) | w | LOW);
        let k = (unset.trailing_zeros() / 8) as usize;
        if k < 8 {
            return (count + k).min(n);
        }
    }
    n
}

// The eight marks from a place on as one word, the first in the lowest octet. Past the last there are none: what stands there is 0.
fn eight_from(marks: &[u8], s: usize) -> u64
    requires { (8 ≤ length marks.now) × (s < length marks.now) }
    ensures { result ≡ word_of marks.now s 8 }
{
    let last = marks.len() - 8;
    if s <= last {
        return eight_at(marks, s);
    }
    eight_at(marks, last) >> (8 * (s - last))
}

// The same where eight stand. The compiler makes one load of it.
fn eight_at(marks: &[u8], s: usize) -> u64
    requires { s + 8 ≤ length marks.now }
    ensures { result ≡ word_of marks.now s 8 }
{
    u64::from_le_bytes([
        marks[s],
        marks[s + 1],
        marks[s + 2],
        marks[s + 3],
        marks[s + 4],
        marks[s + 5],
        marks[s + 6],
        marks[s + 7],
    ])
}
