// Complete units are taken, the oldest first, in any state.
ghost use Rattle.std.specs.Prelude.{◌≡◌, ◌≤◌, length};
ghost use Rattle.channel.specs.Asked.{Ringed, Asked};
ghost use Rattle.channel.specs.Standing.{oldest_of};
ghost use Rattle.receiver_data.specs.Taking.{dropped, take_step, take_out};

use channel::flow::tell_in;
use channel::step::{done, refused};
use channel::{Channel, Refusal, Stepped};
use slots::ring;

// The oldest n segments are gone, and their slots are free.
#[tactic(auto, using(slots::proofs::RingLaws::back_lt))]
fn drop_oldest(c: Channel, n: usize, from: usize) -> Channel
    requires { (Ringed c.limits c.window) × (n ≤ c.window.behind) × (from ≡ oldest_of c.limits.slots c.window) }
    ensures { result ≡ dropped c n }
{
    let mut d = c;
    d.window.behind -= n;
    d.marks = ring::clear(c.marks, c.limits.slots, n, from);
    d
}

// The octets of the oldest complete unit go to the front of `out`, one segment after another; the octets past them stay. A
// buffer too small for them all gets none, and the unit stays.
#[tactic(auto, using(channel::proofs::StandingLaws::ringed, slots::proofs::RingLaws::back_lt))]
pub fn take_step(c: Channel, mem: &[u8], lens: &[u16], out: &mut [u8]) -> Stepped
    requires { Asked c mem.now lens.now }
    ensures { (result ≡ take_step c lens.now (length out.old)) × (out.new ≡ take_out c lens.now mem.now out.old) }
{
    let complete = c.window.behind - c.window.way;
    if complete == 0 {
        return refused(c, Refusal::Nothing);
    }
    let from = ring::back(c.limits.slots, c.window.place, c.window.behind);
    let n = store::unit_of(c.marks, c.limits.slots, complete, from);
    let size = store::size_in(c.limits, lens, n, from);
    if out.len() < size {
        return refused(c, Refusal::Small(size));
    }
    store::gather(c.limits, mem, lens, n, from, out);
    let d = drop_oldest(c, n, from);
    done(tell_in(c.window, d), size)
}
