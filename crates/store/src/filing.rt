// A unit is cut into segments, and each is filed in a slot, from a place on.
ghost use Rattle.std.specs.Prelude.{◌≡◌, ◌+◌, ◌-◌, ◌*◌, ◌<◌, ◌≤◌, length, take, drop, set, ltb, if◌then◌else◌};
ghost use Rattle.slots.specs.Slots.{Sized, laid};
ghost use Rattle.channel.specs.Pairs.{filed};
ghost use Rattle.channel.specs.Places.{slot_in};
ghost use Rattle.slots.specs.Units.{segments_of, segment_cut};
ghost use Rattle.store.specs.Store.{filed_mem, filed_lens, filed_marks};

use channel::Limits;
use channel::places::slot_of;
use slots::ring;

// The octets of a unit from a place on, as many as a slot has or the unit has left, go to a slot.
fn file_from(
    limits: Limits,
    mem: &mut [u8],
    lens: &mut [u16],
    slot: usize,
    unit: &[u8],
    start: usize,
)
    requires sized { Sized limits.slots limits.payload mem.old lens.old }
    requires slot_lt_slots { (slot < limits.slots) × (start ≤ length unit.now) }
    ensures { (mem.new ≡ laid mem.old (slot * limits.payload) (take limits.payload (drop start unit.now))) × (lens.new ≡ set lens.old slot (length (take limits.payload (drop start unit.now)))) }
{
    let left = &unit[start..];
    let count = limits.payload.min(left.len());
    slots::file_segment(
        mem,
        lens,
        slot,
        limits.slots,
        limits.payload,
        &left[..count],
    );
}

// The i-th segment of a unit goes to a slot. On a pair an octet 0 leads, so that the unit's own octets come one later.
fn file_part(limits: Limits, mem: &mut [u8], lens: &mut [u16], slot: usize, unit: &[u8], i: usize)
    requires sized { Sized limits.slots limits.payload mem.old lens.old }
    requires le_payload { (1 ≤ limits.payload) × (slot < limits.slots) × (i < segments_of limits.payload (length (filed limits unit.now))) }
    ensures { (mem.new ≡ laid mem.old (slot * limits.payload) (segment_cut limits.payload (filed limits unit.now) i)) × (lens.new ≡ set lens.old slot (length (segment_cut limits.payload (filed limits unit.now) i))) }
{
    let start = i * limits.payload;
    if limits.lead == 0 {
        file_from(limits, mem, lens, slot, unit, start);
    } else if i == 0 {
        let count = (limits.payload - 1).min(unit.len());
        slots::file_led(
            mem,
            lens,
            slot,
            limits.slots,
            limits.payload,
            0,
            &unit[..count],
        );
    } else {
        file_from(limits, mem, lens, slot, unit, start - 1);
    }
}

// The segments of a unit go to the slots from a place on, with their lengths, and their marks are set.
pub fn file_unit(
    limits: Limits,
    mem: &mut [u8],
    lens: &mut [u16],
    marks: [u8; 128],
    from: usize,
    unit: &[u8],
    count: usize,
) -> [u8; 128]
    requires sized { Sized limits.slots limits.payload mem.old lens.old }
    requires le_payload { (1 ≤ limits.payload) × (from < limits.slots) × (count ≡ segments_of limits.payload (length (filed limits unit.now))) × (count ≤ limits.slots) }
    ensures { (result ≡ filed_marks limits.slots count marks count 0 from) × (mem.new ≡ filed_mem (slot_in limits) limits.payload limits.slots (filed limits unit.now) mem.old count 0 from) × (lens.new ≡ filed_lens (slot_in limits) limits.payload limits.slots (filed limits unit.now) lens.old count 0 from) }
{
    let mut m = marks;
    let mut s = from;
    for i in 0..count {
        let slot = slot_of(limits, s);
        file_part(limits, mem, lens, slot, unit, i);
        m[s] = slots::flags_of(count, i) + 1;
        s = ring::round(s + 1, limits.slots);
    }
    m
}
