// The table is made of settings, each record of one: the form Afresh. And that where there are as many of the one as of the other: the form Making.
ghost use Rattle.std.specs.Prelude.{◌≡◌, length, map};
ghost use Rattle.walks.specs.Serving.{changes};
ghost use Rattle.walks_sample.specs.Ticking.{begun};
ghost use Rattle.walks_sample.specs.Configuring.{made, seen, weighed, counted, filled_lines, configured};

use crate::plain::{Channel, Settings, Survey, Told, Verdict};
use crate::ticking::tick_begin;

pub fn make_one(x: Settings) -> Channel
    ensures { result ≡ made x }
{
    Channel {
        peer: x.peer,
        count: 0,
    }
}

pub fn fill(t: &mut [Channel], s: &[Settings]) -> usize
    requires { length t.old ≡ length s.now }
    ensures { (result ≡ length s.now) × (t.new ≡ map made s.now) }
{
    let mut j = 0;
    while j < t.len() {
        let c = make_one(s[j]);
        t[j] = c;
        j += 1;
    }
    t.len()
}

// Of the settings nothing is noted.
pub fn see(s: &[Settings], lens: &[u16], a: Survey) -> Survey
    ensures { result ≡ seen s.now lens.now a }
{
    a
}

pub fn weigh(v: Survey, n: usize, k: usize, m: usize, l: usize) -> Verdict
    ensures { result ≡ weighed v n k m l }
{
    Verdict {
        holds: n == k,
        told: Told { code: 1, index: n },
    }
}

pub fn fill_end(n: usize, lines: &mut [u8]) -> Told
    ensures { (result ≡ counted n) × (lines.new ≡ filled_lines n lines.old) }
{
    Told { code: 0, index: n }
}

pub fn configure(
    t: &mut [Channel],
    mem: &[u8],
    lens: &[u16],
    lines: &mut [u8],
    s: &[Settings],
) -> Told
    ensures { changes result t.new lines.new ≡ configured t.old mem.now lens.now lines.old s.now }
{
    let a = tick_begin(lines);
    let v = see(s, lens, a);
    let d = weigh(v, t.len(), s.len(), mem.len(), lens.len());
    if d.holds {
        let n = fill(t, s);
        let r = fill_end(n, lines);
        r
    } else {
        d.told
    }
}
