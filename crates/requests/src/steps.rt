// Requests: each names its channel. A request that is not for a channel's direction is refused like one that its state does not allow.
// Each stays a function of its own when it is compiled, so that a call takes the stack of its own step alone.
ghost use Rattle.std.specs.Prelude.{◌≡◌, []};
ghost use Rattle.channel.specs.Asked.{Ringed};
ghost use Rattle.walks.specs.Serving.{works};
ghost use Rattle.table.specs.Surveying.{Served, stepping};
ghost use Rattle.requests.specs.Requests.{opened_by, closed_by, transfer_for, asked_by, take_for, reclaim_for};

use channel::record::{RECEIVES, SENDS};
use channel::step::{refused, unchanged};
use channel::{Channel, Refusal, Stepped};
use table::Decision;

// An Open directive.
#[tactic(auto, unfolding(crate::specs::Requests::opened_by))]
#[inline(never)]
pub fn open_step(c: Channel) -> Stepped
    requires { Ringed c.limits c.window }
    ensures { result ≡ opened_by c }
{
    if c.addresses.direction == SENDS {
        sender::open_step(c)
    } else {
        receiver::open_step(c)
    }
}

// A Close directive.
#[tactic(auto, unfolding(crate::specs::Requests::closed_by))]
#[inline(never)]
pub fn close_step(c: Channel) -> Stepped
    requires { Ringed c.limits c.window }
    ensures { result ≡ closed_by c }
{
    if c.addresses.direction == SENDS {
        sender::close_step(c)
    } else {
        receiver::close_step(c)
    }
}

// A unit is handed over to be sent.
#[inline(never)]
pub fn transfer_step(
    c: Channel,
    d: Decision,
    mem: &mut [u8],
    lens: &mut [u16],
    unit: &[u8],
) -> Stepped
    requires { Served c d mem.old lens.old }
    ensures { works result mem.new lens.new [] ≡ stepping (transfer_for unit.now) c d mem.old lens.old [] }
{
    if c.addresses.direction != SENDS {
        return refused(c, Refusal::State);
    }
    sender_units::transfer_step(
        c,
        unit,
        &mut mem[d.spot.octets(c.limits)],
        &mut lens[d.spot.slots(c.limits)],
    )
}

// What a transfer of so many octets would answer. It is a question: nothing is changed.
#[tactic(auto, unfolding(crate::specs::Requests::asked_by))]
#[inline(never)]
pub fn ask_step(c: Channel, count: usize) -> Stepped
    requires { Ringed c.limits c.window }
    ensures { result ≡ asked_by count c }
{
    if c.addresses.direction != SENDS {
        return refused(c, Refusal::State);
    }
    unchanged(c, sender_units::would_file(c, count))
}

// The oldest complete unit is taken.
#[inline(never)]
pub fn take_step(c: Channel, d: Decision, mem: &[u8], lens: &[u16], out: &mut [u8]) -> Stepped
    requires { Served c d mem.now lens.now }
    ensures { works result mem.now lens.now out.new ≡ stepping take_for c d mem.now lens.now out.old }
{
    if c.addresses.direction != RECEIVES {
        return refused(c, Refusal::State);
    }
    receiver_data::take_step(
        c,
        &mem[d.spot.octets(c.limits)],
        &lens[d.spot.slots(c.limits)],
        out,
    )
}

// The oldest unit that is held is reclaimed.
#[inline(never)]
pub fn reclaim_step(c: Channel, d: Decision, mem: &[u8], lens: &[u16], out: &mut [u8]) -> Stepped
    requires { Served c d mem.now lens.now }
    ensures { works result mem.now lens.now out.new ≡ stepping reclaim_for c d mem.now lens.now out.old }
{
    if c.addresses.direction != SENDS {
        return refused(c, Refusal::State);
    }
    sender_units::reclaim_step(
        c,
        &mem[d.spot.octets(c.limits)],
        &lens[d.spot.slots(c.limits)],
        out,
    )
}
