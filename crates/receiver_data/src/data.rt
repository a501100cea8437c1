// Data packets: sorted by their number, filed where they are new, and the start moved.
ghost use Rattle.std.specs.Prelude.{◌≡◌, ◌<◌};
ghost use Rattle.channel.specs.Asked.{Ringed};
ghost use Rattle.receiver.specs.Asked.{DataAsked};
ghost use Rattle.receiver_data.specs.Data.{marking, accept_step, data_by, mem_by, lens_by, data_step, data_mem, data_lens};
ghost use Rattle.receiver_data.specs.declared.sorting.Sort.TheVariants as sort;

use crate::moving::move_start;
use crate::sorting::{Sort, away, sort_at};
use channel::places::slot_of;
use channel::record::{BROKEN_FLAGS, DATA_NUMBER, OPEN};
use channel::step::{done, refused};
use channel::{Channel, Refusal, Stepped};
use receiver::leaving::{ack_length, failed, repeated};
use slots::ring;

// The place is marked with the segment's flags, and Data was accepted in this opening.
fn mark(c: Channel, place: usize, flags: u8) -> Channel
    requires { (place < 128) × (flags < 4) }
    ensures { result ≡ marking c place flags }
{
    let mut d = c;
    d.phase.accepted = 1;
    d.marks[place] = flags + 1;
    d
}

// The segment filed at a place is accepted, and the start moves. At a break no ack goes out: the other end must not count the
// segment as received.
fn accept(c: Channel, place: usize, flags: u8) -> Stepped
    requires { (Ringed c.limits c.window) × (place < 128) × (flags < 4) }
    ensures { result ≡ accept_step c place flags }
{
    let mut d = mark(c, place, flags);
    let moved = move_start(c.limits, d.marks, c.window);
    d.window = moved.window;
    if moved.broken {
        return failed(d, BROKEN_FLAGS);
    }
    done(d, ack_length(c.addresses, c.limits))
}

// A new segment, d past the start: filed and accepted, or refused where it lies as many slots or more past the oldest one kept.
#[tactic(auto, using(channel::proofs::StandingLaws::ringed, slots::proofs::RingLaws::round_lt))]
fn take_new(
    c: Channel,
    d: usize,
    flags: u8,
    part: &[u8],
    mem: &mut [u8],
    lens: &mut [u16],
) -> Stepped
    requires { (DataAsked c flags part.now mem.old lens.old) × (d < 256) }
    ensures { (result ≡ data_by sort.New c d flags) × (mem.new ≡ mem_by sort.New c d part.now mem.old) × (lens.new ≡ lens_by sort.New c d part.now lens.old) }
{
    let slots = c.limits.slots;
    if slots <= c.window.behind + d {
        return refused(c, Refusal::Full);
    }
    let place = ring::round(c.window.place + d, slots);
    let slot = slot_of(c.limits, place);
    slots::file_segment(mem, lens, slot, slots, c.limits.payload, part);
    accept(c, place, flags)
}

// A Data packet arrives, with its number, its flags and its payload where it lies in the packet. A repeat is acknowledged, and
// the first copy stays.
#[tactic(auto, using(channel::proofs::StandingLaws::ringed))]
pub fn data_step(
    c: Channel,
    number: u8,
    flags: u8,
    part: &[u8],
    mem: &mut [u8],
    lens: &mut [u16],
) -> Stepped
    requires { DataAsked c flags part.now mem.old lens.old }
    ensures { (result ≡ data_step c number flags) × (mem.new ≡ data_mem c number part.now mem.old) × (lens.new ≡ data_lens c number part.now lens.old) }
{
    if c.phase.state != OPEN {
        return refused(c, Refusal::State);
    }
    let d = away(number, c.window.start) as usize;
    match sort_at(c.limits, c.window, c.marks, d) {
        Sort::New => take_new(c, d, flags, part, mem, lens),
        Sort::Held | Sort::Behind => repeated(c),
        Sort::Other => failed(c, DATA_NUMBER),
    }
}
