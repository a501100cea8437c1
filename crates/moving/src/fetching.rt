// Octets of a unit that is held, from any place of it on: the segments in which they lie may be longer or shorter than those that they go to.
ghost use Rattle.std.specs.Prelude.{◌≡◌, ◌-◌, ◌≤◌, ◌<◌, length, get_or, take, drop};
ghost use Rattle.slots.specs.Slots.{Sized, laid, segment_in};
ghost use Rattle.channel.specs.Places.{slot_in};
ghost use Rattle.store.specs.Store.{EachFits, octets_in};

use channel::Limits;
use channel::places::slot_of;
use slots::ring;

// The octets of a slot behind the first `skip` go to `out` from `at` on, as many as there is room for. Tells how many.
fn read_part(
    mem: &[u8],
    lens: &[u16],
    slot: usize,
    slots: usize,
    most: usize,
    skip: usize,
    out: &mut [u8],
    at: usize,
) -> usize
    requires sized { Sized slots most mem.now lens.now }
    requires slot_lt_slots { (slot < slots) × (get_or lens.now slot 0 ≤ most) × (at ≤ length out.old) }
    ensures { (result ≡ length (take (length out.old - at) (drop skip (segment_in most mem.now lens.now slot)))) × (out.new ≡ laid out.old at (take (length out.old - at) (drop skip (segment_in most mem.now lens.now slot)))) }
{
    let n = lens[slot] as usize;
    if n <= skip {
        return 0;
    }
    let from = slot * most + skip;
    let count = (n - skip).min(out.len() - at);
    out[at..at + count].copy_from_slice(&mem[from..from + count]);
    count
}

// Of the octets of the n segments from a place on, one after another, those from the one numbered `start` on go to the front of `out`, as many as there is
// room for.
pub fn fetch(
    limits: Limits,
    mem: &[u8],
    lens: &[u16],
    n: usize,
    from: usize,
    start: usize,
    out: &mut [u8],
)
    requires sized { Sized limits.slots limits.payload mem.now lens.now }
    requires from_lt_slots { (from < limits.slots) × (n ≤ limits.slots) }
    requires each_fits { EachFits (slot_in limits) limits.payload lens.now limits.slots n from }
    ensures { out.new ≡ laid out.old 0 (take (length out.old) (drop start (octets_in (slot_in limits) limits.payload mem.now lens.now limits.slots n from))) }
{
    let mut skip = start;
    let mut at = 0;
    let mut s = from;
    for _i in 0..n {
        let slot = slot_of(limits, s);
        at += read_part(mem, lens, slot, limits.slots, limits.payload, skip, out, at);
        skip = skip.saturating_sub(lens[slot] as usize);
        s = ring::round(s + 1, limits.slots);
    }
}
