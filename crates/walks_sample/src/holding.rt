// A table that is held by value, lent to a call and given back with its answer: the forms HeldCall and HeldSweeping.
ghost use Rattle.std.specs.Prelude.{◌≡◌};
ghost use Rattle.walks.specs.Serving.{leaves, changes};
ghost use Rattle.walks_sample.specs.Serving.{served};
ghost use Rattle.walks_sample.specs.Ticking.{ticked};

use crate::plain::{Channel, Kept, Request};
use crate::serving::serve;
use crate::ticking::tick;

pub fn serve_in(
    t: [Channel; 2],
    mem: &mut [u8],
    lens: &mut [u16],
    lines: &mut [u8],
    n: Request,
    x: &[u8],
    out: &mut [u8],
) -> Kept
    ensures { leaves result.told result.table mem.new lens.new lines.new out.new ≡ served t mem.old lens.old lines.old n x.now out.old }
{
    let mut table = t;
    let told = serve(&mut table, mem, lens, lines, n, x, out);
    Kept { told, table }
}

pub fn tick_in(t: [Channel; 2], mem: &[u8], lens: &[u16], lines: &mut [u8]) -> Kept
    ensures { changes result.told result.table lines.new ≡ ticked t mem.now lens.now lines.old }
{
    let mut table = t;
    let told = tick(&mut table, mem, lens, lines);
    Kept { told, table }
}
