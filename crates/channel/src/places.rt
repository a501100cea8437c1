// The slot of a place.
ghost use Rattle.std.specs.Prelude.{◌≡◌};
ghost use Rattle.channel.specs.Places.{slot_in};

use crate::record::Limits;

// Where the segment at a place of the ring lies in memory. It takes the part of the record that knows, and not the record: a test of every
// slot asks it for each.
pub fn slot_of(limits: Limits, place: usize) -> usize
    ensures { result ≡ slot_in limits place }
{
    place
}
