// Every call of the node for C.
ghost use Rattle.std.specs.Prelude.{◌≡◌, [], length};
ghost use Rattle.walks.specs.Serving.{leaves, changes};
ghost use Rattle.node.specs.declared.request.Request.TheVariants as request;
ghost use Rattle.node.specs.Calls.{served_index, open_call, close_call, transfer_call, question_call, take_call, reclaim_call, next_packet_call, arrival_call};
ghost use Rattle.ticks.specs.Ticks.{ticked, tick_index};
ghost use Rattle.settings.specs.Configuring.{configured};
ghost use Rattle.host.specs.Said.{said_at, told_at};

use channel::{Channel, Node, Settings};
use host::answers::Said;

// A table made afresh.
#[unsafe(no_mangle)]
pub extern "C" fn peat_settings(
    t: &mut [Channel],
    mem: &[u8],
    lens: &[u16],
    lines: &mut [u8],
    s: &[Settings],
) -> Said
    ensures { changes result t.new lines.new ≡ told_at (length t.old) (configured t.old mem.now lens.now lines.old s.now) }
{
    host::calls::peat_settings(t, mem, lens, lines, s)
}

// A directive leaves memory and lengths as they were.
#[unsafe(no_mangle)]
pub extern "C" fn peat_open(
    t: &mut [Channel],
    mem: &mut [u8],
    lens: &mut [u16],
    lines: &mut [u8],
    index: usize,
) -> Said
    ensures { (changes result t.new lines.new ≡ told_at (served_index t.old mem.old lens.old lines.old (request.Open index) [] []) (open_call t.old mem.old lens.old lines.old index)) × (mem.new ≡ mem.old) × (lens.new ≡ lens.old) }
{
    host::calls::peat_open(t, mem, lens, lines, index)
}

#[unsafe(no_mangle)]
pub extern "C" fn peat_close(
    t: &mut [Channel],
    mem: &mut [u8],
    lens: &mut [u16],
    lines: &mut [u8],
    index: usize,
) -> Said
    ensures { (changes result t.new lines.new ≡ told_at (served_index t.old mem.old lens.old lines.old (request.Close index) [] []) (close_call t.old mem.old lens.old lines.old index)) × (mem.new ≡ mem.old) × (lens.new ≡ lens.old) }
{
    host::calls::peat_close(t, mem, lens, lines, index)
}

#[unsafe(no_mangle)]
pub extern "C" fn peat_transfer(
    t: &mut [Channel],
    mem: &mut [u8],
    lens: &mut [u16],
    lines: &mut [u8],
    index: usize,
    unit: &[u8],
) -> Said
    ensures { leaves result t.new mem.new lens.new lines.new [] ≡ said_at (served_index t.old mem.old lens.old lines.old (request.Transfer index) unit.now []) (transfer_call t.old mem.old lens.old lines.old index unit.now) }
{
    host::calls::peat_transfer(t, mem, lens, lines, index, unit)
}

// A question: whatever it answers, all that is lent stays as it was.
#[unsafe(no_mangle)]
pub extern "C" fn peat_would_transfer(
    t: &mut [Channel],
    mem: &mut [u8],
    lens: &mut [u16],
    lines: &mut [u8],
    index: usize,
    count: usize,
) -> Said
    ensures { (changes result t.new lines.new ≡ told_at (served_index t.old mem.old lens.old lines.old (request.WouldTransfer index count) [] []) (question_call t.old mem.old lens.old lines.old index count)) × (t.new ≡ t.old) × (mem.new ≡ mem.old) × (lens.new ≡ lens.old) × (lines.new ≡ lines.old) }
{
    host::calls::peat_would_transfer(t, mem, lens, lines, index, count)
}

#[unsafe(no_mangle)]
pub extern "C" fn peat_take(
    t: &mut [Channel],
    mem: &mut [u8],
    lens: &mut [u16],
    lines: &mut [u8],
    index: usize,
    out: &mut [u8],
) -> Said
    ensures { (leaves result t.new mem.new lens.new lines.new out.new ≡ said_at (served_index t.old mem.old lens.old lines.old (request.Take index) [] out.old) (take_call t.old mem.old lens.old lines.old index out.old)) × (mem.new ≡ mem.old) × (lens.new ≡ lens.old) }
{
    host::calls::peat_take(t, mem, lens, lines, index, out)
}

#[unsafe(no_mangle)]
pub extern "C" fn peat_reclaim(
    t: &mut [Channel],
    mem: &mut [u8],
    lens: &mut [u16],
    lines: &mut [u8],
    index: usize,
    out: &mut [u8],
) -> Said
    ensures { (leaves result t.new mem.new lens.new lines.new out.new ≡ said_at (served_index t.old mem.old lens.old lines.old (request.Reclaim index) [] out.old) (reclaim_call t.old mem.old lens.old lines.old index out.old)) × (mem.new ≡ mem.old) × (lens.new ≡ lens.old) }
{
    host::calls::peat_reclaim(t, mem, lens, lines, index, out)
}

#[unsafe(no_mangle)]
pub extern "C" fn peat_next_packet(
    t: &mut [Channel],
    mem: &mut [u8],
    lens: &mut [u16],
    lines: &mut [u8],
    node: Node,
    out: &mut [u8],
) -> Said
    ensures { (leaves result t.new mem.new lens.new lines.new out.new ≡ said_at (served_index t.old mem.old lens.old lines.old (request.NextPacket node) [] out.old) (next_packet_call t.old mem.old lens.old lines.old node out.old)) × (mem.new ≡ mem.old) × (lens.new ≡ lens.old) }
{
    host::calls::peat_next_packet(t, mem, lens, lines, node, out)
}

#[unsafe(no_mangle)]
pub extern "C" fn peat_arrival(
    t: &mut [Channel],
    mem: &mut [u8],
    lens: &mut [u16],
    lines: &mut [u8],
    node: Node,
    packet: &[u8],
    reply: &mut [u8],
) -> Said
    ensures { leaves result t.new mem.new lens.new lines.new reply.new ≡ said_at (served_index t.old mem.old lens.old lines.old (request.Arrival node) packet.now reply.old) (arrival_call t.old mem.old lens.old lines.old node packet.now reply.old) }
{
    host::calls::peat_arrival(t, mem, lens, lines, node, packet, reply)
}

#[unsafe(no_mangle)]
pub extern "C" fn peat_tick(t: &mut [Channel], mem: &[u8], lens: &[u16], lines: &mut [u8]) -> Said
    ensures { changes result t.new lines.new ≡ told_at (tick_index t.old mem.now lens.now lines.old) (ticked t.old mem.now lens.now lines.old) }
{
    host::calls::peat_tick(t, mem, lens, lines)
}
