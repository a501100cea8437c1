// The record that a request names is served and stored: the form Call.
ghost use Rattle.std.specs.Prelude.{◌≡◌};
ghost use Rattle.walks.specs.Serving.{performs, leaves};
ghost use Rattle.walks_sample.specs.Surveying.{is_low};
ghost use Rattle.walks_sample.specs.Serving.{begun, decided, stepped, served};

use crate::plain::{Channel, Decision, Placed, Request, Survey, Told};
use crate::surveying::survey;

pub fn serve_begin(lines: &[u8], n: Request, x: &[u8], room: usize) -> Survey
    ensures { result ≡ begun lines.now n x.now room }
{
    match n {
        Request::Open(at)
        | Request::Move(at, _)
        | Request::Transfer(at)
        | Request::Take(at)
        | Request::Arrival(at) => Survey { sound: true, at },
    }
}

pub fn decide(v: Survey, n: usize, m: usize, l: usize) -> Decision
    ensures { result ≡ decided v n m l }
{
    Decision {
        at: if v.sound { v.at } else { n },
        told: Told { code: 1, index: n },
    }
}

// The record is counted up; the memory, the lengths, the lines and what is handed out stay.
pub fn serve_step(
    c: Channel,
    d: Decision,
    n: Request,
    mem: &mut [u8],
    lens: &mut [u16],
    lines: &mut [u8],
    x: &[u8],
    out: &mut [u8],
) -> Placed
    requires { is_low c }
    ensures { performs result mem.new lens.new lines.new out.new ≡ stepped c d n mem.old lens.old lines.old x.now out.old }
{
    Placed {
        channel: Channel {
            count: c.count + 1,
            ..c
        },
        told: Told {
            code: 0,
            index: d.at,
        },
    }
}

pub fn serve(
    t: &mut [Channel],
    mem: &mut [u8],
    lens: &mut [u16],
    lines: &mut [u8],
    n: Request,
    x: &[u8],
    out: &mut [u8],
) -> Told
    ensures { leaves result t.new mem.new lens.new lines.new out.new ≡ served t.old mem.old lens.old lines.old n x.now out.old }
{
    let a = serve_begin(lines, n, x, out.len());
    let v = survey(t, lens, a);
    let d = decide(v, t.len(), mem.len(), lens.len());
    if d.at < t.len() {
        let s = serve_step(t[d.at], d, n, mem, lens, lines, x, out);
        t[d.at] = s.channel;
        s.told
    } else {
        d.told
    }
}
