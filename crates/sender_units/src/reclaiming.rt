// In CLOSED the units held are reclaimed, whole and oldest first.
ghost use Rattle.std.specs.Prelude.{◌≡◌, ◌≤◌, length};
ghost use Rattle.channel.specs.Asked.{Ringed, Asked};
ghost use Rattle.sender_units.specs.Reclaiming.{dropped, reclaim_step, reclaim_out};

use channel::record::CLOSED;
use channel::step::{done, refused};
use channel::{Channel, Refusal, Stepped, Window};
use slots::ring;

// The oldest n segments are gone, and their slots are free.
fn drop_oldest(c: Channel, n: usize) -> Channel
    requires { (Ringed c.limits c.window) × (n ≤ c.window.ahead) }
    ensures { result ≡ dropped c n }
{
    Channel {
        window: Window {
            place: ring::round(c.window.place + n, c.limits.slots),
            ahead: c.window.ahead - n,
            ..c.window
        },
        marks: ring::clear(c.marks, c.limits.slots, n, c.window.place),
        ..c
    }
}

// The octets of the oldest unit go to the front of `out`, one segment after another; the octets past them stay. A buffer too small
// for them all gets none, and the unit stays.
#[tactic(auto, unfolding(crate::specs::Reclaiming::reclaim_step, crate::specs::Reclaiming::reclaim_out))]
pub fn reclaim_step(c: Channel, mem: &[u8], lens: &[u16], out: &mut [u8]) -> Stepped
    requires { Asked c mem.now lens.now }
    ensures { (result ≡ reclaim_step c lens.now (length out.old)) × (out.new ≡ reclaim_out c lens.now mem.now out.old) }
{
    if c.phase.state != CLOSED {
        return refused(c, Refusal::State);
    }
    if c.window.ahead == 0 {
        return refused(c, Refusal::Nothing);
    }
    let from = c.window.place;
    let n = store::unit_of(c.marks, c.limits.slots, c.window.ahead, from);
    let size = store::size_in(c.limits, lens, n, from);
    if out.len() < size {
        return refused(c, Refusal::Small(size));
    }
    store::gather(c.limits, mem, lens, n, from, out);
    done(drop_oldest(c, n), size)
}
