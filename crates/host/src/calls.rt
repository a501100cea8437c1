// Every call of the node for C: the table, the memory, the lengths, the lines and the buffers are lent as they are, and the answer comes as numbers. Each is a
// thin call of the node's door; what a call does not have, it lends empty.
ghost use Rattle.std.specs.Prelude.{◌≡◌, [], length};
ghost use Rattle.walks.specs.Serving.{leaves, changes};
ghost use Rattle.node.specs.declared.request.Request.TheVariants as request;
ghost use Rattle.node.specs.Calls.{served, served_index, open_call, close_call, transfer_call, question_call, take_call, reclaim_call, next_packet_call, arrival_call};
ghost use Rattle.ticks.specs.Ticks.{ticked, tick_index};
ghost use Rattle.settings.specs.Configuring.{configured};
ghost use Rattle.host.specs.Said.{said_at, told_at};

use crate::answers::{Said, said_of};
use channel::{Channel, Node, Settings};
use node::Request;
use node::door::serve;
use settings::settings;
use ticks::ticking::tick;

// A table made afresh.
pub fn peat_settings(
    t: &mut [Channel],
    mem: &[u8],
    lens: &[u16],
    lines: &mut [u8],
    s: &[Settings],
) -> Said
    ensures { changes result t.new lines.new ≡ told_at (length t.old) (configured t.old mem.now lens.now lines.old s.now) }
{
    said_of(settings(t, mem, lens, lines, s))
}

// Whatever is asked of the door, with its answer as C sees it.
fn serve_said(
    t: &mut [Channel],
    mem: &mut [u8],
    lens: &mut [u16],
    lines: &mut [u8],
    n: Request,
    x: &[u8],
    out: &mut [u8],
) -> Said
    ensures { leaves result t.new mem.new lens.new lines.new out.new ≡ said_at (served_index t.old mem.old lens.old lines.old n x.now out.old) (served t.old mem.old lens.old lines.old n x.now out.old) }
{
    said_of(serve(t, mem, lens, lines, n, x, out))
}

// A directive leaves memory and lengths as they were.
pub fn peat_open(
    t: &mut [Channel],
    mem: &mut [u8],
    lens: &mut [u16],
    lines: &mut [u8],
    index: usize,
) -> Said
    ensures { (changes result t.new lines.new ≡ told_at (served_index t.old mem.old lens.old lines.old (request.Open index) [] []) (open_call t.old mem.old lens.old lines.old index)) × (mem.new ≡ mem.old) × (lens.new ≡ lens.old) }
{
    serve_said(t, mem, lens, lines, Request::Open(index), &[], &mut [])
}

pub fn peat_close(
    t: &mut [Channel],
    mem: &mut [u8],
    lens: &mut [u16],
    lines: &mut [u8],
    index: usize,
) -> Said
    ensures { (changes result t.new lines.new ≡ told_at (served_index t.old mem.old lens.old lines.old (request.Close index) [] []) (close_call t.old mem.old lens.old lines.old index)) × (mem.new ≡ mem.old) × (lens.new ≡ lens.old) }
{
    serve_said(t, mem, lens, lines, Request::Close(index), &[], &mut [])
}

pub fn peat_transfer(
    t: &mut [Channel],
    mem: &mut [u8],
    lens: &mut [u16],
    lines: &mut [u8],
    index: usize,
    unit: &[u8],
) -> Said
    ensures { leaves result t.new mem.new lens.new lines.new [] ≡ said_at (served_index t.old mem.old lens.old lines.old (request.Transfer index) unit.now []) (transfer_call t.old mem.old lens.old lines.old index unit.now) }
{
    serve_said(t, mem, lens, lines, Request::Transfer(index), unit, &mut [])
}

// A question: whatever it answers, all that is lent stays as it was.
pub fn peat_would_transfer(
    t: &mut [Channel],
    mem: &mut [u8],
    lens: &mut [u16],
    lines: &mut [u8],
    index: usize,
    count: usize,
) -> Said
    ensures { (changes result t.new lines.new ≡ told_at (served_index t.old mem.old lens.old lines.old (request.WouldTransfer index count) [] []) (question_call t.old mem.old lens.old lines.old index count)) × (t.new ≡ t.old) × (mem.new ≡ mem.old) × (lens.new ≡ lens.old) × (lines.new ≡ lines.old) }
{
    serve_said(
        t,
        mem,
        lens,
        lines,
        Request::WouldTransfer { index, count },
        &[],
        &mut [],
    )
}

pub fn peat_take(
    t: &mut [Channel],
    mem: &mut [u8],
    lens: &mut [u16],
    lines: &mut [u8],
    index: usize,
    out: &mut [u8],
) -> Said
    ensures { (leaves result t.new mem.new lens.new lines.new out.new ≡ said_at (served_index t.old mem.old lens.old lines.old (request.Take index) [] out.old) (take_call t.old mem.old lens.old lines.old index out.old)) × (mem.new ≡ mem.old) × (lens.new ≡ lens.old) }
{
    serve_said(t, mem, lens, lines, Request::Take(index), &[], out)
}

pub fn peat_reclaim(
    t: &mut [Channel],
    mem: &mut [u8],
    lens: &mut [u16],
    lines: &mut [u8],
    index: usize,
    out: &mut [u8],
) -> Said
    ensures { (leaves result t.new mem.new lens.new lines.new out.new ≡ said_at (served_index t.old mem.old lens.old lines.old (request.Reclaim index) [] out.old) (reclaim_call t.old mem.old lens.old lines.old index out.old)) × (mem.new ≡ mem.old) × (lens.new ≡ lens.old) }
{
    serve_said(t, mem, lens, lines, Request::Reclaim(index), &[], out)
}

pub fn peat_next_packet(
    t: &mut [Channel],
    mem: &mut [u8],
    lens: &mut [u16],
    lines: &mut [u8],
    node: Node,
    out: &mut [u8],
) -> Said
    ensures { (leaves result t.new mem.new lens.new lines.new out.new ≡ said_at (served_index t.old mem.old lens.old lines.old (request.NextPacket node) [] out.old) (next_packet_call t.old mem.old lens.old lines.old node out.old)) × (mem.new ≡ mem.old) × (lens.new ≡ lens.old) }
{
    serve_said(t, mem, lens, lines, Request::NextPacket(node), &[], out)
}

pub fn peat_arrival(
    t: &mut [Channel],
    mem: &mut [u8],
    lens: &mut [u16],
    lines: &mut [u8],
    node: Node,
    packet: &[u8],
    reply: &mut [u8],
) -> Said
    ensures { leaves result t.new mem.new lens.new lines.new reply.new ≡ said_at (served_index t.old mem.old lens.old lines.old (request.Arrival node) packet.now reply.old) (arrival_call t.old mem.old lens.old lines.old node packet.now reply.old) }
{
    serve_said(t, mem, lens, lines, Request::Arrival(node), packet, reply)
}

// The form LentSweeping of docs/WALKS.md, to the letter.
pub fn peat_tick(t: &mut [Channel], mem: &[u8], lens: &[u16], lines: &mut [u8]) -> Said
    ensures { changes result t.new lines.new ≡ told_at (tick_index t.old mem.now lens.now lines.old) (ticked t.old mem.now lens.now lines.old) }
{
    let a = tick(t, mem, lens, lines);
    let r = said_of(a);
    r
}
