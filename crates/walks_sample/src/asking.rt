// Thin calls of one door, `serve`: each makes its request, and lends an empty array for a slice that it has not. The forms DoorOne, DoorTwo,
// DoorTaking, DoorGiving and DoorWhole.
ghost use Rattle.std.specs.Prelude.{◌≡◌, []};
ghost use Rattle.walks.specs.Serving.{leaves, saying};
ghost use Rattle.walks_sample.specs.Serving.{served};
ghost use Rattle.walks_sample.specs.Saying.{said};
ghost use Rattle.walks_sample.specs.declared.plain.Request.TheVariants.{Open, Move, Transfer, Take, Arrival};

use crate::lending::said_of;
use crate::plain::{Channel, Request, Said};
use crate::serving::serve;

pub fn open_asked(i: usize) -> Request
    ensures { result ≡ Open i }
{
    Request::Open(i)
}

pub fn transfer_asked(i: usize) -> Request
    ensures { result ≡ Transfer i }
{
    Request::Transfer(i)
}

pub fn take_asked(i: usize) -> Request
    ensures { result ≡ Take i }
{
    Request::Take(i)
}

pub fn arrival_asked(i: usize) -> Request
    ensures { result ≡ Arrival i }
{
    Request::Arrival(i)
}

pub fn move_asked(i: usize, j: usize) -> Request
    ensures { result ≡ Move i j }
{
    Request::Move(i, j)
}

pub fn open_at(
    t: &mut [Channel],
    mem: &mut [u8],
    lens: &mut [u16],
    lines: &mut [u8],
    index: usize,
) -> Said
    ensures { leaves result t.new mem.new lens.new lines.new [] ≡ saying said (served t.old mem.old lens.old lines.old (Open index) [] []) }
{
    let n = open_asked(index);
    let x: [u8; 0] = [];
    let mut out: [u8; 0] = [];
    let a = serve(t, mem, lens, lines, n, &x, &mut out);
    let r = said_of(a);
    r
}

pub fn move_at(
    t: &mut [Channel],
    mem: &mut [u8],
    lens: &mut [u16],
    lines: &mut [u8],
    index: usize,
    count: usize,
) -> Said
    ensures { leaves result t.new mem.new lens.new lines.new [] ≡ saying said (served t.old mem.old lens.old lines.old (Move index count) [] []) }
{
    let n = move_asked(index, count);
    let x: [u8; 0] = [];
    let mut out: [u8; 0] = [];
    let a = serve(t, mem, lens, lines, n, &x, &mut out);
    let r = said_of(a);
    r
}

pub fn transfer_at(
    t: &mut [Channel],
    mem: &mut [u8],
    lens: &mut [u16],
    lines: &mut [u8],
    index: usize,
    x: &[u8],
) -> Said
    ensures { leaves result t.new mem.new lens.new lines.new [] ≡ saying said (served t.old mem.old lens.old lines.old (Transfer index) x.now []) }
{
    let n = transfer_asked(index);
    let mut out: [u8; 0] = [];
    let a = serve(t, mem, lens, lines, n, x, &mut out);
    let r = said_of(a);
    r
}

pub fn take_at(
    t: &mut [Channel],
    mem: &mut [u8],
    lens: &mut [u16],
    lines: &mut [u8],
    index: usize,
    out: &mut [u8],
) -> Said
    ensures { leaves result t.new mem.new lens.new lines.new out.new ≡ saying said (served t.old mem.old lens.old lines.old (Take index) [] out.old) }
{
    let n = take_asked(index);
    let x: [u8; 0] = [];
    let a = serve(t, mem, lens, lines, n, &x, out);
    let r = said_of(a);
    r
}

pub fn arrival_at(
    t: &mut [Channel],
    mem: &mut [u8],
    lens: &mut [u16],
    lines: &mut [u8],
    index: usize,
    x: &[u8],
    out: &mut [u8],
) -> Said
    ensures { leaves result t.new mem.new lens.new lines.new out.new ≡ saying said (served t.old mem.old lens.old lines.old (Arrival index) x.now out.old) }
{
    let n = arrival_asked(index);
    let a = serve(t, mem, lens, lines, n, x, out);
    let r = said_of(a);
    r
}
