// All that is lent is lent on to a call, and its answer is turned: the forms LentSweeping and LentMaking.
ghost use Rattle.std.specs.Prelude.{◌≡◌};
ghost use Rattle.walks.specs.Serving.{changes, telling};
ghost use Rattle.walks_sample.specs.Ticking.{ticked};
ghost use Rattle.walks_sample.specs.Configuring.{configured};
ghost use Rattle.walks_sample.specs.Saying.{said};

use crate::configuring::configure;
use crate::plain::{Channel, Said, Settings, Told};
use crate::ticking::tick;

pub fn said_of(a: Told) -> Said
    ensures { result ≡ said a }
{
    Said {
        code: a.code,
        done: a.code == 0,
    }
}

pub fn tick_said(t: &mut [Channel], mem: &[u8], lens: &[u16], lines: &mut [u8]) -> Said
    ensures { changes result t.new lines.new ≡ telling said (ticked t.old mem.now lens.now lines.old) }
{
    let a = tick(t, mem, lens, lines);
    let r = said_of(a);
    r
}

pub fn configure_said(
    t: &mut [Channel],
    mem: &[u8],
    lens: &[u16],
    lines: &mut [u8],
    s: &[Settings],
) -> Said
    ensures { changes result t.new lines.new ≡ telling said (configured t.old mem.now lens.now lines.old s.now) }
{
    let a = configure(t, mem, lens, lines, s);
    let r = said_of(a);
    r
}
