// The one door: whatever is asked of one channel goes through it.
ghost use Rattle.std.specs.Prelude.{◌≡◌, length};
ghost use Rattle.walks.specs.Serving.{works, performs, leaves, saying};
ghost use Rattle.table.specs.Serving.{told_of};
ghost use Rattle.table.specs.Surveying.{begun, stepping, placed, Served, Lined};
ghost use Rattle.node.specs.Calls.{look_in, step_for, served, served_index};

use crate::request::{Request, look_in};
use arrivals::arriving::arrive_step;
use channel::step::refused;
use channel::{Channel, Refusal, Stepped};
use requests::handing::next_step;
use requests::steps::{ask_step, close_step, open_step, reclaim_step, take_step, transfer_step};
use table::beginning::survey;
use table::deciding::decide;
use table::surveying::begin;
use table::waiting::{move_lines, rank_in, waiting};
use table::{Decision, Placed, Survey, Told};

// A packet is read before the table is surveyed; what that says counts after the test for 13. A function of its own: so `serve` has the form Call of
// docs/WALKS.md.
fn serve_begin(lines: &[u8], n: Request, x: &[u8], room: usize) -> Survey
    ensures { result ≡ begun (look_in n x.now room) lines.now }
{
    begin(look_in(n, x, room), lines)
}

// What is asked of the channel that was found. Each arm takes other parts of what is lent, so that a closure for each would be no plainer.
fn step_for(
    c: Channel,
    d: Decision,
    n: Request,
    mem: &mut [u8],
    lens: &mut [u16],
    x: &[u8],
    out: &mut [u8],
) -> Stepped
    requires { (Served c d mem.old lens.old) × (d.look ≡ look_in n x.now (length out.old)) }
    ensures { works result mem.new lens.new out.new ≡ stepping (step_for n x.now) c d mem.old lens.old out.old }
{
    match n {
        Request::Open(_) => open_step(c),
        Request::Close(_) => close_step(c),
        Request::Transfer(_) => transfer_step(c, d, mem, lens, x),
        Request::WouldTransfer { count, .. } => ask_step(c, count),
        Request::Take(_) => take_step(c, d, mem, lens, out),
        Request::Reclaim(_) => reclaim_step(c, d, mem, lens, out),
        Request::Arrival(node) => arrive_step(c, d, node, mem, lens, x, out),
        Request::NextPacket(node) => next_step(c, d, node, mem, lens, out),
        Request::Unknown => refused(c, Refusal::NoChannel),
    }
}

// The channel as it is stored, its place in the lines, and the answer with its index.
fn serve_step(
    c: Channel,
    d: Decision,
    n: Request,
    mem: &mut [u8],
    lens: &mut [u16],
    lines: &mut [u8],
    x: &[u8],
    out: &mut [u8],
) -> Placed
    requires { (Served c d mem.old lens.old) × (d.look ≡ look_in n x.now (length out.old)) × (Lined d lines.old) }
    ensures { performs result mem.new lens.new lines.new out.new ≡ placed d lines.old (stepping (step_for n x.now) c d mem.old lens.old out.old) }
{
    let s = step_for(c, d, n, mem, lens, x, out);
    move_lines(
        lines,
        d.look.sought,
        rank_in(d.spot.grade),
        d.spot.at,
        s.answer,
        waiting(s.channel),
    );
    Placed {
        channel: s.channel,
        told: Told {
            answer: s.answer,
            ..d.told
        },
    }
}

// The call, over a lent table.
pub fn serve(
    t: &mut [Channel],
    mem: &mut [u8],
    lens: &mut [u16],
    lines: &mut [u8],
    n: Request,
    x: &[u8],
    out: &mut [u8],
) -> Told
    ensures { leaves result t.new mem.new lens.new lines.new out.new ≡ saying (told_of (served_index t.old mem.old lens.old lines.old n x.now out.old)) (served t.old mem.old lens.old lines.old n x.now out.old) }
{
    let a = serve_begin(lines, n, x, out.len());
    let v = survey(t, lens, a);
    let d = decide(v, t.len(), mem.len(), lens.len());
    if d.at < t.len() {
        let s = serve_step(t[d.at], d, n, mem, lens, lines, x, out);
        t[d.at] = s.channel;
        s.told
    } else {
        d.told
    }
}
