// How a unit is cut: how many segments it has, and the flags of each.
ghost use Rattle.std.specs.Prelude.{◌≡◌, ◌≤◌};
ghost use Rattle.slots.specs.Units.{segments_of, flags_of};

// How many segments a unit of n octets has.
#[tactic(auto, using(crate::proofs::Units::segments_ceil))]
pub fn segments(most: usize, n: usize) -> usize
    requires { 1 ≤ most }
    ensures { result ≡ segments_of most n }
{
    n.div_ceil(most).max(1)
}

// The sequence flags of the i-th segment, from 0, of a unit with so many.
pub fn flags_of(count: usize, i: usize) -> u8
    ensures { result ≡ flags_of count i }
{
    match (count, i) {
        (1, _) => 3,
        (_, 0) => 1,
        _ if i < count && i + 1 == count => 2,
        _ => 0,
    }
}
