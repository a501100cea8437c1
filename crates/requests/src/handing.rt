// The next packet: that of the channel and the rank that were chosen.
// It stays a function of its own when it is compiled, so that a call takes the stack of its own step alone.
ghost use Rattle.std.specs.Prelude.{◌≡◌};
ghost use Rattle.walks.specs.Serving.{works};
ghost use Rattle.table.specs.declared.looking.Sought.TheVariants.{Ready};
ghost use Rattle.table.specs.Looking.{seeking};
ghost use Rattle.table.specs.Surveying.{Served, stepping};
ghost use Rattle.requests.specs.Handing.{next_for};

use channel::{Channel, Node, Stepped};
use table::Decision;
use table::waiting::rank_in;

#[inline(never)]
pub fn next_step(
    c: Channel,
    d: Decision,
    node: Node,
    mem: &[u8],
    lens: &[u16],
    out: &mut [u8],
) -> Stepped
    requires { (Served c d mem.now lens.now) × (d.look ≡ seeking Ready) }
    ensures { works result mem.now lens.now out.new ≡ stepping (next_for node) c d mem.now lens.now out.old }
{
    sender_packets::hand_step(
        node,
        c,
        &mem[d.spot.octets(c.limits)],
        &lens[d.spot.slots(c.limits)],
        rank_in(d.spot.grade),
        out,
    )
}
