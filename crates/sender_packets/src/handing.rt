// Of which ranks a packet of a channel is ready (Control, the Heartbeat or Flow Control, resent Data, new Data), of each the lowest segment; and the hand-out of that of
// a rank, whole or not at all.
// What is marked `inline(never)` stays a function of its own when it is compiled, so that a call takes the stack of its own step alone.
ghost use Rattle.std.specs.Prelude.{◌≡◌, ◌+◌, ◌-◌, ◌<◌, ◌≤◌, true, not, ◌&&◌, ◌||◌, length, ◌==◌, slice_index, if◌then◌else◌};
ghost use Rattle.channel.specs.Record.{receives, enabled, opened, closing};
ghost use Rattle.channel.specs.Flow.{stated, flow_number, may_follow};
ghost use Rattle.packet.specs.declared.kinds.Kind.TheVariants.{Open, Close, Heartbeat, FlowControl};
ghost use Rattle.channel.specs.Prefixes.{fit_prefix};
ghost use Rattle.channel.specs.Lone.{is_ready};
ghost use Rattle.channel.specs.Asked.{Ringed, Asked};
ghost use Rattle.sender_packets.specs.HandingOut.{again_in, again_at, ready_open, next_in_window, ranks_of, timed_at, lone_sent, beside_out, single_out, single_count, single_payload, again_out, new_out, single_fields, data_fields, sent_step, sent_out, hand_step, hand_out};
ghost use Rattle.slots.specs.Slots.{segment_in};
ghost use Rattle.channel.specs.Places.{slot_of};
ghost use Rattle.sender.specs.Directives.{place_at};
ghost use Rattle.sender_packets.specs.Asked.{Ready, Plain};

use channel::flow::{flow_number, last_is, may_follow, number_stated};
use channel::lone::{hand_out, is_ready};
use channel::places::slot_of;
use channel::pulse::sent;
use channel::record::{CLOSING, ENABLED, OPEN, RECEIVES};
use channel::step::{done, outgoing, outgoing_length, refused, write_outgoing};
use channel::{Channel, Flow, Limits, Lone, Node, Pulse, Refusal, Stepped, Window, flow};
use lines::Ranks;
use packet::fields::WHOLE;
use packet::{Fields, Kind};
use slots::ring;

// Of the n segments from a place on, how many there are before the first that waits to be resent, one that is not acknowledged and whose timer has ended;
// n if none does. No ring has a place past the 128th; what is looked for there reads as 0, and so as one that waits.
fn again_in(acked: &[u8; 128], left: &[u16; 128], slots: usize, n: usize, from: usize) -> usize
    ensures { result ≡ again_in acked.now left.now slots n from }
{
    let mut s = from;
    for i in 0..n {
        if 128 <= s || acked[s] == 0 && left[s] == 0 {
            return i;
        }
        s = ring::round(s + 1, slots);
    }
    n
}

// The lowest segment that waits to be resent, counted from the start; as many as are in flight if none does.
fn again_at(c: &Channel) -> usize
    ensures { result ≡ again_at c.now }
{
    again_in(
        &c.acked,
        &c.timers.left,
        c.limits.slots,
        c.window.flight,
        c.window.place,
    )
}

fn is_control_ready(state: u8, control: Lone) -> bool
    ensures { result ≡ ((state == enabled || state == closing) && is_ready control) }
{
    (state == ENABLED || state == CLOSING) && is_ready(control)
}

// The Heartbeat, and of a receiver Flow Control.
fn is_beside_ready(direction: u8, p: Pulse) -> bool
    ensures { result ≡ (is_ready p.beat || (direction == receives && is_ready p.flow.packet)) }
{
    is_ready(p.beat) || direction == RECEIVES && is_ready(p.flow.packet)
}

// These are for OPEN, at either end.
pub fn is_open_ready(c: Channel) -> bool
    ensures { result ≡ ready_open c }
{
    c.phase.state == OPEN && is_beside_ready(c.addresses.direction, c.pulse)
}

// Only the k numbers from the window start may be sent, and no number past the one recorded, where Flow Control is used.
fn is_new_allowed(l: Limits, w: Window, recorded: u8) -> bool
    ensures { result ≡ (next_in_window l w && may_follow l w recorded) }
{
    w.flight < w.ahead && w.flight < l.window && may_follow(l, w, recorded)
}

// Of which ranks a packet is ready: of rank 0 it is the Heartbeat or Flow Control in OPEN, and else Control.
#[tactic(auto, unfolding(crate::specs::HandingOut::ready))]
pub fn ranks_of(c: Channel) -> Ranks
    ensures { result ≡ ranks_of c }
{
    if c.phase.state != OPEN {
        return Ranks {
            control: is_control_ready(c.phase.state, c.phase.control),
            ..Ranks::NONE
        };
    }
    Ranks {
        control: is_beside_ready(c.addresses.direction, c.pulse),
        again: again_at(&c) < c.window.flight,
        fresh: is_new_allowed(c.limits, c.window, c.pulse.flow.recorded),
    }
}

// The channel with the timer of the segment at a place started at the timeout, and so many resends left to it; and as Data goes out, the interval of
// the Heartbeat starts anew.
fn start_timer(c: Channel, place: usize, tries: u16) -> Channel
    requires { place < 128 }
    ensures { result ≡ timed_at c place tries }
{
    let mut d = c;
    d.timers.left[place] = c.limits.timeout;
    d.timers.tries[place] = tries;
    d.pulse = sent(c.phase.state, c.limits, c.pulse);
    d
}

// In OPEN the Heartbeat goes out, or else Flow Control. Either is then the last packet sent.
fn beside_out(l: Limits, now: u8, p: Pulse) -> Pulse
    ensures { result ≡ beside_out l now p }
{
    if is_ready(p.beat) {
        Pulse {
            beat: hand_out(p.beat, l.timeout, l.retries),
            flow: last_is(0, p.flow),
            ..p
        }
    } else {
        Pulse {
            left: l.interval,
            flow: flow::out(l, now, p.flow),
            ..p
        }
    }
}

// Out of OPEN it is the Open or the Close.
fn single_out(c: Channel, now: u8) -> Channel
    requires { now ≡ stated c.limits c.window }
    ensures { result ≡ single_out c }
{
    let mut d = c;
    if c.phase.state == OPEN {
        d.pulse = beside_out(c.limits, now, c.pulse);
    } else {
        d.phase.control = hand_out(c.phase.control, c.limits.timeout, c.limits.retries);
    }
    d
}

// The i-th segment from the start on is handed out again: one resend less is left to it.
#[inline(never)]
fn again_out(c: Channel, i: usize) -> Channel
    requires { (Ringed c.limits c.window) × (i ≡ again_at c) × (i < c.window.flight) }
    ensures { result ≡ again_out c }
{
    let place = ring::round(c.window.place + i, c.limits.slots);
    start_timer(c, place, c.timers.tries[place].saturating_sub(1))
}

// The next segment is handed out for the first time: all resends are left to it, no ack is known of it, and one more is in flight. So an ack
// that stands where nothing was sent, in a record that was overwritten, is never taken for this segment's.
#[inline(never)]
fn new_out(c: Channel) -> Channel
    requires { (Ringed c.limits c.window) × (c.window.flight < c.window.ahead) }
    ensures { result ≡ new_out c }
{
    let place = ring::round(c.window.place + c.window.flight, c.limits.slots);
    let mut d = start_timer(c, place, c.limits.retries);
    d.window.flight = c.window.flight + 1;
    d.acked[place] = 0;
    d
}

// A packet goes out, and the channel is then another; where the buffer is too small, nothing changes.
fn send(before: Channel, after: Channel, fields: Fields, payload: &[u8], out: &mut [u8]) -> Stepped
    requires { Plain before.addresses fields (length payload.now) }
    ensures { (result ≡ sent_step before after (length payload.now) (length out.old)) × (out.new ≡ sent_out before.addresses fields payload.now out.old) }
{
    let n = outgoing_length(before.addresses, payload.len());
    if out.len() < n {
        return refused(before, Refusal::Small(n));
    }
    let _ = write_outgoing(before.addresses, fields, payload, out);
    done(after, n)
}

// In OPEN it is Flow Control where no Heartbeat is ready.
fn is_flow(state: u8, beat: Lone) -> bool
    ensures { result ≡ (state == opened && not (is_ready beat)) }
{
    state == OPEN && !is_ready(beat)
}

// An Open in ENABLED, a Heartbeat or Flow Control in OPEN, a Close in CLOSING.
fn single_kind(state: u8, flow: bool) -> Kind
    ensures { result ≡ (if flow then FlowControl else if state == enabled then Open else if state == opened then Heartbeat else Close) }
{
    match (state, flow) {
        (_, true) => Kind::FlowControl,
        (ENABLED, _) => Kind::Open,
        (OPEN, _) => Kind::Heartbeat,
        _ => Kind::Close,
    }
}

// Numbered 0, but for Flow Control.
fn single_number(flow: bool, f: Flow) -> u8
    ensures { result ≡ (if flow then flow_number f else 0) }
{
    if flow { flow_number(f) } else { 0 }
}

// It has no payload, but Flow Control states a number.
#[inline(never)]
fn hand_single(node: Node, c: Channel, out: &mut [u8]) -> Stepped
    requires { (fit_prefix c.addresses.own ≡ true) × (c.limits.window ≤ 128) }
    ensures { (result ≡ sent_step c (single_out c) (single_count c) (length out.old)) × (out.new ≡ sent_out c.addresses (single_fields node c) (single_payload c) out.old) }
{
    let flow = is_flow(c.phase.state, c.pulse.beat);
    let kind = single_kind(c.phase.state, flow);
    let number = single_number(flow, c.pulse.flow);
    let fields = outgoing(node, c.addresses, kind, WHOLE, number);
    let stated = number_stated(c.limits, c.window);
    let octet = [stated];
    let payload = &octet[..usize::from(flow)];
    send(c, single_out(c, stated), fields, payload, out)
}

// The i-th segment from the start on goes out, its payload read where it lies in its slot.
fn hand_data(
    node: Node,
    c: Channel,
    after: Channel,
    mem: &[u8],
    lens: &[u16],
    i: usize,
    out: &mut [u8],
) -> Stepped
    requires { (Asked c mem.now lens.now) × (i < c.window.ahead) }
    ensures { (result ≡ sent_step c after (slice_index lens.now (slot_of c (place_at c i))) (length out.old)) × (out.new ≡ sent_out c.addresses (data_fields node c i) (segment_in c.limits.payload mem.now lens.now (slot_of c (place_at c i))) out.old) }
{
    let place = ring::round(c.window.place + i, c.limits.slots);
    let slot = slot_of(c.limits, place);
    let number = c.window.start.wrapping_add(i as u8);
    let fields = outgoing(node, c.addresses, Kind::Data, c.marks[place] - 1, number);
    let from = slot * c.limits.payload;
    let end = from + usize::from(lens[slot]);
    send(c, after, fields, &mem[from..end], out)
}

// The packet of a rank that is ready is handed out into a lent buffer, or refused whole if it does not fit. A rank is a number and no enum: the
// definitions `ready` and `hand_step` take it so, and lines and grades are counted by it (a line begins at 17 times the rank, a grade is 16 times the
// rank and the place).
pub fn hand_step(
    node: Node,
    c: Channel,
    mem: &[u8],
    lens: &[u16],
    rank: usize,
    out: &mut [u8],
) -> Stepped
    requires { (Asked c mem.now lens.now) × (Ready c rank) }
    ensures { (result ≡ hand_step c lens.now rank (length out.old)) × (out.new ≡ hand_out node c lens.now mem.now rank out.old) }
{
    match rank {
        0 => hand_single(node, c, out),
        1 => {
            let i = again_at(&c);
            hand_data(node, c, again_out(c, i), mem, lens, i, out)
        }
        _ => hand_data(node, c, new_out(c), mem, lens, c.window.flight, out),
    }
}
