// A unit that is held on one route is filed on another: cut anew, by the other's P, and with the leading octet 1.
ghost use Rattle.std.specs.Prelude.{◌≡◌, ◌+◌, ◌*◌, ◌^◌, ◌≤◌, ◌<◌, length, take, set};
ghost use Rattle.slots.specs.Slots.{Sized, laid};
ghost use Rattle.slots.specs.Units.{segments_of, segment_cut};
ghost use Rattle.channel.specs.Places.{slot_in};
ghost use Rattle.channel.specs.Pairs.{again};
ghost use Rattle.store.specs.Store.{EachFits, octets_in, filed_mem, filed_lens, filed_marks};
ghost use Rattle.table.specs.Lent.{area_of};
ghost use Rattle.moving.specs.Refiling.{own_of, lens_of, Lies, Apart, unit_in, Holds};

use crate::fetching::fetch;
use channel::Limits;
use channel::places::slot_of;
use slots::ring;
use std::ops::Range;
use table::surveying::area;

// A channel's own part of what is lent: where its lengths and its octets begin.
#[derive(Clone, Copy)]
pub struct Lot {
    pub limits: Limits,
    pub slot: usize,
    pub octet: usize,
}

impl Lot {
    // Where its octets lie.
    fn octets(self) -> Range<usize>
        requires { (self.limits.slots ≤ 128) × (self.limits.payload ≤ 1024) × (self.octet + area_of self.limits < 2 ^ 64) }
        ensures { (result.start ≡ self.octet) × (result.end ≡ self.octet + area_of self.limits) }
    {
        self.octet..self.octet + area(self.limits)
    }

    // Where its lengths lie.
    fn lengths(self) -> Range<usize>
        requires { self.slot + self.limits.slots < 2 ^ 64 }
        ensures { (result.start ≡ self.slot) × (result.end ≡ self.slot + self.limits.slots) }
    {
        self.slot..self.slot + self.limits.slots
    }
}

// A unit that is held: in whose part, in how many segments from which place on, and as how many octets it is filed anew.
#[derive(Clone, Copy)]
pub struct Unit {
    pub lot: Lot,
    pub count: usize,
    pub from: usize,
    pub size: usize,
}

// The octets of one segment, at the front of as many as a slot may have: an array, for there is no heap.
#[derive(Clone, Copy)]
pub struct Cut {
    pub octets: [u8; 1024],
    pub length: usize,
}

// The i-th segment of a unit that is filed anew, in slots of at most `most`: 1 in place of its first octet, and the others as they are. The octets and
// the lengths are those of the unit's own part.
fn cut_again(u: Unit, mem: &[u8], lens: &[u16], most: usize, i: usize) -> Cut
    requires sized { Sized u.lot.limits.slots u.lot.limits.payload mem.now lens.now }
    requires from_lt_slots { (u.from < u.lot.limits.slots) × (u.count ≤ u.lot.limits.slots) × (EachFits (slot_in u.lot.limits) u.lot.limits.payload lens.now u.lot.limits.slots u.count u.from) }
    requires le_most { (1 ≤ most) × (most ≤ 1024) × (u.size ≡ length (again (octets_in (slot_in u.lot.limits) u.lot.limits.payload mem.now lens.now u.lot.limits.slots u.count u.from))) × (i < segments_of most u.size) }
    ensures { (result.length ≡ length (segment_cut most (again (octets_in (slot_in u.lot.limits) u.lot.limits.payload mem.now lens.now u.lot.limits.slots u.count u.from)) i)) × (take result.length result.octets ≡ segment_cut most (again (octets_in (slot_in u.lot.limits) u.lot.limits.payload mem.now lens.now u.lot.limits.slots u.count u.from)) i) }
{
    let limits = u.lot.limits;
    let start = i * most;
    let length = (u.size - start).min(most);
    let mut octets = [0; 1024];
    if i == 0 {
        octets[0] = 1;
        let part = &mut octets[1..length];
        fetch(limits, mem, lens, u.count, u.from, 1, part);
    } else {
        let part = &mut octets[..length];
        fetch(limits, mem, lens, u.count, u.from, start, part);
    }
    Cut { octets, length }
}

// The i-th segment goes to a slot of the other part.
fn refile_part(u: Unit, to: Lot, mem: &mut [u8], lens: &mut [u16], slot: usize, i: usize)
    requires lies { (Lies u.lot mem.old lens.old) × (Lies to mem.old lens.old) × (Holds u mem.old lens.old) }
    requires le_payload { (1 ≤ to.limits.payload) × (slot < to.limits.slots) × (i < segments_of to.limits.payload u.size) }
    ensures { (mem.new ≡ laid mem.old to.octet (laid (own_of to mem.old) (slot * to.limits.payload) (segment_cut to.limits.payload (again (unit_in u mem.old lens.old)) i))) × (lens.new ≡ laid lens.old to.slot (set (lens_of to lens.old) slot (length (segment_cut to.limits.payload (again (unit_in u mem.old lens.old)) i)))) }
{
    let cut = cut_again(
        u,
        &mem[u.lot.octets()],
        &lens[u.lot.lengths()],
        to.limits.payload,
        i,
    );
    slots::file_segment(
        &mut mem[to.octets()],
        &mut lens[to.lengths()],
        slot,
        to.limits.slots,
        to.limits.payload,
        &cut.octets[..cut.length],
    );
}

// Its segments go to the slots of the other part from a place on, with their lengths, and their marks are set.
// The walk is that of `file_unit` in `store`, but the unit lies in the memory that is written, and not beside it: one walk for both would take the
// step as a closure, whose contract is longer than the walk.
pub fn refile(
    u: Unit,
    to: Lot,
    mem: &mut [u8],
    lens: &mut [u16],
    marks: [u8; 128],
    from: usize,
    count: usize,
) -> [u8; 128]
    requires lies { (Lies u.lot mem.old lens.old) × (Lies to mem.old lens.old) × (Holds u mem.old lens.old) × (Apart u.lot to) }
    requires le_payload { (1 ≤ to.limits.payload) × (from < to.limits.slots) × (count ≡ segments_of to.limits.payload u.size) × (count ≤ to.limits.slots) }
    ensures { (result ≡ filed_marks to.limits.slots count marks count 0 from) × (mem.new ≡ laid mem.old to.octet (filed_mem (slot_in to.limits) to.limits.payload to.limits.slots (again (unit_in u mem.old lens.old)) (own_of to mem.old) count 0 from)) × (lens.new ≡ laid lens.old to.slot (filed_lens (slot_in to.limits) to.limits.payload to.limits.slots (again (unit_in u mem.old lens.old)) (lens_of to lens.old) count 0 from)) }
{
    let mut m = marks;
    let mut s = from;
    for i in 0..count {
        let slot = slot_of(to.limits, s);
        refile_part(u, to, mem, lens, slot, i);
        m[s] = slots::flags_of(count, i) + 1;
        s = ring::round(s + 1, to.limits.slots);
    }
    m
}
