// The octets of the n segments from a place on: how many, and one after another.
ghost use Rattle.std.specs.Prelude.{◌≡◌, ◌<◌, ◌≤◌, length};
ghost use Rattle.slots.specs.Slots.{Sized, laid};
ghost use Rattle.channel.specs.Places.{slot_in};
ghost use Rattle.store.specs.Store.{EachFits, size_in, octets_in};

use channel::Limits;
use channel::places::slot_of;
use slots::ring;

// How many octets the segments have.
#[tactic(auto, using(channel::proofs::PlaceLaws::slot_bound))]
pub fn size_in(limits: Limits, lens: &[u16], n: usize, from: usize) -> usize
    requires { (from < limits.slots) × (limits.slots ≤ length lens.now) × (n ≤ 128) }
    ensures { result ≡ size_in (slot_in limits) lens.now limits.slots n from }
{
    let mut sum: usize = 0;
    let mut s = from;
    for _i in 0..n {
        sum += usize::from(lens[slot_of(limits, s)]);
        s = ring::round(s + 1, limits.slots);
    }
    sum
}

// Their octets go to the front of `out`, one segment after another. What stands behind them stays.
#[tactic(auto, using(channel::proofs::PlaceLaws::slot_bound))]
pub fn gather(limits: Limits, mem: &[u8], lens: &[u16], n: usize, from: usize, out: &mut [u8])
    requires sized { Sized limits.slots limits.payload mem.now lens.now }
    requires from_lt_slots { (from < limits.slots) × (n ≤ limits.slots) × (size_in (slot_in limits) lens.now limits.slots n from ≤ length out.old) }
    requires each_fits { EachFits (slot_in limits) limits.payload lens.now limits.slots n from }
    ensures { out.new ≡ laid out.old 0 (octets_in (slot_in limits) limits.payload mem.now lens.now limits.slots n from) }
{
    let mut at: usize = 0;
    let mut s = from;
    for _i in 0..n {
        let slot = slot_of(limits, s);
        slots::read_segment(mem, lens, slot, limits.slots, limits.payload, out, at);
        at += lens[slot] as usize;
        s = ring::round(s + 1, limits.slots);
    }
}
