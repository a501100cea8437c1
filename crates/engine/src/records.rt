// One record of a trace.
ghost use Rattle.std.specs.Prelude.{◌≡◌};
ghost use Rattle.walks.specs.Serving.{leaves};
ghost use Rattle.engine.specs.Records.{replayed};

use crate::held::{Kept, serve_in, tick_in};
use crate::request::{TICK, octets_from, request_of};
use channel::{Channel, Node};

// By its kind and its body, with a lent buffer for what the call writes. What is lent stays apart, each part by its name: `replayed` and the node's
// door hold it so.
#[tactic(auto, using(crate::proofs::RecordLaws::from_inside, crate::proofs::RecordLaws::replays_other, laws::proofs::Lists::tail_part))]
pub fn step(
    t: [Channel; 2],
    mem: &mut [u8],
    lens: &mut [u16],
    lines: &mut [u8],
    node: Node,
    kind: u16,
    body: &[u8],
    out: &mut [u8],
) -> Kept
    ensures { leaves result.told result.table mem.new lens.new lines.new out.new ≡ replayed t mem.old lens.old lines.old node kind body.now out.old }
{
    if kind == TICK {
        return tick_in(t, mem, lens, lines);
    }
    let n = request_of(kind, body, node);
    let from = octets_from(kind, body);
    serve_in(t, mem, lens, lines, n, &body[from..], out)
}
