// Two channels held by value, lent to a call and given back.
ghost use Rattle.std.specs.Prelude.{◌≡◌};
ghost use Rattle.walks.specs.Serving.{leaves, changes, telling};
ghost use Rattle.table.specs.Serving.{told_of};
ghost use Rattle.ticks.specs.Ticks.{ticked, tick_index};
ghost use Rattle.engine.specs.Records.{serving};

use channel::Channel;
use node::Request;
use node::door::serve;
use table::Told;
use ticks::ticking::tick;

// What a call told, and the channels after it.
#[derive(Clone, Copy)]
pub struct Kept {
    pub told: Told,
    pub table: [Channel; 2],
}

// The node's door.
pub fn serve_in(
    t: [Channel; 2],
    mem: &mut [u8],
    lens: &mut [u16],
    lines: &mut [u8],
    n: Request,
    x: &[u8],
    out: &mut [u8],
) -> Kept
    ensures { leaves result.told result.table mem.new lens.new lines.new out.new ≡ serving t mem.old lens.old lines.old n x.now out.old }
{
    let mut table = t;
    let told = serve(&mut table, mem, lens, lines, n, x, out);
    Kept { told, table }
}

pub fn tick_in(t: [Channel; 2], mem: &[u8], lens: &[u16], lines: &mut [u8]) -> Kept
    ensures { changes result.told result.table lines.new ≡ telling (told_of (tick_index t mem.now lens.now lines.old)) (ticked t mem.now lens.now lines.old) }
{
    let mut table = t;
    let told = tick(&mut table, mem, lens, lines);
    Kept { told, table }
}
