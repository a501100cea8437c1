// The standing condition of a record with its lengths (docs/CONDITION.md), tested by every call for every record. It looks at each slot once,
// and once more at those held.
ghost use Rattle.std.specs.Prelude.{◌≡◌, ◌≤◌, ◌<◌, length};
ghost use Rattle.channel.specs.Places.{slot_in};
ghost use Rattle.channel.specs.Standing.{named, in_ring, in_flight, sided, asking, rested, slot_fit, slots_fit, marked, standing};

use channel::places::slot_of;
use channel::record::{CLOSED, OPEN, SENDS};
use channel::settings::{fits_addresses, fits_limits};
use channel::{Channel, Limits, Phase, Window};
use slots::ring;

#[tactic(auto, using(channel::proofs::SettingsLaws::fit_is, channel::proofs::StandingLaws::ring_is), unfolding(channel::specs::Standing::standing))]
pub fn stands(c: Channel, lens: &[u16]) -> bool
    ensures { result ≡ standing c lens.now }
{
    // Of their own: to lend them where they lie, the compiler would copy the whole record.
    let marks = c.marks;
    fits_limits(c.limits)
        && lens.len() == c.limits.slots
        && is_named(c)
        && is_in_ring(c.limits, c.window)
        && is_in_flight(c.limits, c.window)
        && is_sided(c.addresses.direction, c.phase.state, c.window)
        && is_rested(c.addresses.direction, c.phase, c.window)
        && is_marked(c.limits.slots, c.window, &marks)
        && slots_fit(c.limits, c.addresses.direction == SENDS, &marks, lens)
}

// The addresses and the small numbers have a meaning.
#[tactic(auto, unfolding(channel::specs::Standing::named))]
fn is_named(c: Channel) -> bool
    ensures { result ≡ named c }
{
    fits_addresses(c.addresses)
        && c.phase.state <= 3
        && c.phase.reason <= 6
        && c.phase.kept <= 1
        && c.phase.accepted <= 1
        && c.phase.control.state <= 3
        && c.pulse.beat.state <= 3
        && c.pulse.flow.packet.state <= 3
}

// What is held is within the slots.
#[tactic(auto, unfolding(channel::specs::Standing::in_ring))]
fn is_in_ring(l: Limits, w: Window) -> bool
    ensures { result ≡ in_ring l w }
{
    w.place < l.slots && w.behind <= l.slots && w.ahead <= l.slots - w.behind
}

// What was handed out is within what is ahead and the window, and what is on the way within what is behind and the unit.
#[tactic(auto, unfolding(channel::specs::Standing::in_flight))]
fn is_in_flight(l: Limits, w: Window) -> bool
    ensures { result ≡ in_flight l w }
{
    w.flight <= w.ahead && w.flight <= l.window && w.way <= w.behind && w.way < l.segments
}

// A receiver has nothing ahead; a sender has nothing on the way, and out of OPEN nothing behind the start or in flight.
#[tactic(auto, unfolding(channel::specs::Standing::sided))]
fn is_sided(direction: u8, state: u8, w: Window) -> bool
    ensures { result ≡ sided direction state w }
{
    if direction == SENDS {
        w.way == 0 && (state == OPEN || (w.behind == 0 && w.flight == 0))
    } else {
        w.ahead == 0
    }
}

// Out of OPEN the window starts at 1, no unit is half taken in, and a sender that is not CLOSED asks to open or to close: so an opening begins
// where the other end expects it, and no sender waits in ENABLED or CLOSING for an ack of what it never sends.
#[tactic(auto, unfolding(channel::specs::Standing::rested))]
fn is_rested(direction: u8, p: Phase, w: Window) -> bool
    ensures { result ≡ rested direction p w }
{
    p.state == OPEN || (w.start == 1 && w.way == 0 && is_asking(direction, p))
}

#[tactic(auto, unfolding(channel::specs::Standing::asking))]
fn is_asking(direction: u8, p: Phase) -> bool
    ensures { result ≡ asking direction p }
{
    direction != SENDS || p.state == CLOSED || p.control.state != 0
}

// Each segment held lies in a slot that is marked.
fn is_marked(slots: usize, w: Window, marks: &[u8; 128]) -> bool
    requires { (w.place < slots) × (w.behind ≤ slots) × (w.ahead ≤ 128) × (slots ≤ 128) }
    ensures { result ≡ marked slots w marks.now }
{
    let held = w.behind + w.ahead;
    ring::run(marks, slots, held, ring::back(slots, w.place, w.behind)) == held
}

// Each slot that is marked has a length that fits: marks lie by place, lengths by slot. No slot ends the walk, and its numbers are narrow: so the compiler
// takes eight at once.
fn slots_fit(limits: Limits, sending: bool, marks: &[u8; 128], lens: &[u16]) -> bool
    requires { (limits.slots ≤ 128) × (limits.slots ≤ length lens.now) × (limits.payload ≤ 1024) }
    ensures { result ≡ slots_fit (slot_in limits) sending limits.payload marks.now lens.now limits.slots 0 }
{
    let most = limits.payload as u16;
    let mut fit = true;
    for i in 0..limits.slots {
        fit &= slot_fits(sending, most, marks[i], lens[slot_of(limits, i)]);
    }
    fit
}

#[tactic(auto, unfolding(channel::specs::Standing::slot_fit))]
fn slot_fits(sending: bool, most: u16, mark: u8, len: u16) -> bool
    ensures { result ≡ slot_fit sending most mark len }
{
    // No branch: so the walk takes several slots at once, of a receiver too.
    let whole = !sending | (3 <= mark) | (len == most);
    (mark == 0) | ((mark <= 4) & (len <= most) & whole)
}
