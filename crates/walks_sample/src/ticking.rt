// Every record is stepped in turn and stored: the form Sweep. And that where the survey passes a test: the form Sweeping.
ghost use Rattle.std.specs.Prelude.{◌≡◌};
ghost use Rattle.walks.specs.Sweep.{sweep_t, sweep_a, Every};
ghost use Rattle.walks.specs.Serving.{changes};
ghost use Rattle.walks_sample.specs.Surveying.{blank, is_low};
ghost use Rattle.walks_sample.specs.Ticking.{swept, summed, turned, begun, judged, started, concluded, end_lines, ticked};

use crate::plain::{Channel, Round, Survey, Swept, Told, Verdict};
use crate::surveying::survey;

// The record is counted up, and has the peer of the one before.
pub fn tick_next(c: Channel, a: Round) -> Swept
    requires { is_low c }
    ensures { result ≡ turned c a }
{
    Swept {
        channel: Channel {
            peer: a.peer,
            count: c.count + 1,
        },
        round: Round { peer: c.peer },
    }
}

pub fn tick_all(t: &mut [Channel], start: Round) -> Round
    requires { Every blank is_low t.old }
    ensures { (result ≡ sweep_a swept summed turned t.old start) × (t.new ≡ sweep_t swept summed turned t.old start) }
{
    let mut a = start;
    let mut i = 0;
    while i < t.len() {
        let s = tick_next(t[i], a);
        t[i] = s.channel;
        a = s.round;
        i += 1;
    }
    a
}

pub fn tick_begin(lines: &[u8]) -> Survey
    ensures { result ≡ begun lines.now }
{
    Survey { sound: true, at: 0 }
}

pub fn judge(v: Survey, n: usize, m: usize, l: usize) -> Verdict
    ensures { result ≡ judged v n m l }
{
    Verdict {
        holds: v.sound,
        told: Told { code: 1, index: n },
    }
}

pub fn tick_start(lines: &[u8]) -> Round
    ensures { result ≡ started lines.now }
{
    Round { peer: 0 }
}

pub fn tick_end(z: Round, lines: &mut [u8]) -> Told
    ensures { (result ≡ concluded z) × (lines.new ≡ end_lines z lines.old) }
{
    Told { code: 0, index: 0 }
}

pub fn tick(t: &mut [Channel], mem: &[u8], lens: &[u16], lines: &mut [u8]) -> Told
    ensures { changes result t.new lines.new ≡ ticked t.old mem.now lens.now lines.old }
{
    let a = tick_begin(lines);
    let v = survey(t, lens, a);
    let d = judge(v, t.len(), mem.len(), lens.len());
    if d.holds {
        let k = tick_start(lines);
        let z = tick_all(t, k);
        let r = tick_end(z, lines);
        r
    } else {
        d.told
    }
}
