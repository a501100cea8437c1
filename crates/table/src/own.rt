// A channel's own part of what is lent: where its octets and its lengths lie.
ghost use Rattle.std.specs.Prelude.{◌≡◌, ◌+◌, ◌^◌, ◌≤◌, ◌<◌};
ghost use Rattle.table.specs.Lent.{area_of};

use crate::surveying::{Spot, area};
use channel::Limits;
use std::ops::Range;

impl Spot {
    // The places of its octets in the lent memory.
    pub fn octets(self, l: Limits) -> Range<usize>
        requires { (l.slots ≤ 128) × (l.payload ≤ 1024) × (self.octet + area_of l < 2 ^ 64) }
        ensures { (result.start ≡ self.octet) × (result.end ≡ self.octet + area_of l) }
    {
        self.octet..self.octet + area(l)
    }

    // The places of its lengths among those lent.
    pub fn slots(self, l: Limits) -> Range<usize>
        requires { self.slot + l.slots < 2 ^ 64 }
        ensures { (result.start ≡ self.slot) × (result.end ≡ self.slot + l.slots) }
    {
        self.slot..self.slot + l.slots
    }
}
