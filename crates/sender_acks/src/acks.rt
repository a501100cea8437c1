// Acks at a transmit end: of Control packets; and of Data, whether a number is awaited, that it came, and how far the start then moves.
ghost use Rattle.std.specs.Prelude.{◌≡◌, ◌<◌, ◌≤◌};
ghost use Rattle.channel.specs.Asked.{Ringed};
ghost use Rattle.sender.specs.Directives.{place_at};
ghost use Rattle.sender_acks.specs.Acks.{control_acked, control_ack_step, is_awaited, recorded, run_at, moved_window, freed_marks, advanced, data_ack_step};

use channel::lone::is_out;
use channel::record::{CLOSED, CLOSING, ENABLED, OPEN};
use channel::step::{done, refused};
use channel::{Answer, Channel, Lone, Phase, Refusal, Stepped, Window, pulse};
use sender::directives::park;
use slots::ring;

// The control packet is acknowledged: to OPEN, where the interval of the Heartbeat starts, or with a Close kept to CLOSING at once; from CLOSING to
// CLOSED.
fn control_acked(c: Channel) -> Channel
    requires { Ringed c.limits c.window }
    ensures { result ≡ control_acked c }
{
    if c.phase.state == CLOSING {
        return park(c, CLOSED, Lone::NONE);
    }
    if c.phase.kept != 0 {
        return park(c, CLOSING, Lone::READY);
    }
    Channel {
        phase: Phase {
            state: OPEN,
            control: Lone::NONE,
            ..c.phase
        },
        pulse: pulse::start(c.limits),
        ..c
    }
}

// A Control Ack. Before the packet was handed out none can be for it.
#[tactic(auto, unfolding(crate::specs::Acks::control_ack_step))]
pub fn control_ack_step(c: Channel, number: u8) -> Stepped
    requires { Ringed c.limits c.window }
    ensures { result ≡ control_ack_step c number }
{
    if !matches!(c.phase.state, ENABLED | CLOSING) {
        return refused(c, Refusal::State);
    }
    if number != 0 || !is_out(c.phase.control) {
        return refused(c, Refusal::Ignored);
    }
    done(control_acked(c), 0)
}

// The d-th number from the start on was sent and is not yet acknowledged. What was sent is within the window.
#[tactic(auto, unfolding(crate::specs::Acks::is_awaited))]
fn is_awaited(c: &Channel, d: usize) -> bool
    requires { Ringed c.now.limits c.now.window }
    ensures { result ≡ is_awaited c.now d }
{
    d < c.window.flight && c.acked[ring::round(c.window.place + d, c.limits.slots)] == 0
}

// The segment at a place is acknowledged: it is not resent, and has no timer.
fn note(c: Channel, place: usize, d: usize) -> Channel
    requires { (place ≡ place_at c d) × (place < 128) }
    ensures { result ≡ recorded c d }
{
    let mut next = c;
    next.acked[place] = 1;
    next.timers.left[place] = 0;
    next
}

// The window, n further on, of which `done` are of units that are confirmed. What is passed of an unconfirmed unit stays behind
// the start, so that the unit can be reclaimed whole.
fn moved_window(w: Window, place: usize, n: usize, done: usize) -> Window
    requires { (n ≤ w.flight) × (w.flight ≤ w.ahead) × (done ≤ n) × (w.behind ≤ 128) × (w.ahead ≤ 128) }
    ensures { result ≡ moved_window w place n done }
{
    Window {
        start: w.start.wrapping_add(n as u8),
        place,
        behind: if done == 0 { w.behind + n } else { n - done },
        ahead: w.ahead - n,
        flight: w.flight - n,
        ..w
    }
}

// The slots of the units confirmed are free, those of an unconfirmed one are not: they go whole or not at all.
fn freed_marks(c: &Channel, done: usize) -> [u8; 128]
    requires { (Ringed c.now.limits c.now.window) × (done ≤ c.now.window.ahead) }
    ensures { result ≡ freed_marks c.now done }
{
    if done == 0 {
        return c.marks;
    }
    let from = ring::back(c.limits.slots, c.window.place, c.window.behind);
    ring::clear(c.marks, c.limits.slots, c.window.behind + done, from)
}

// The start moves past every leading acknowledged number, n of them.
fn advance(c: Channel, n: usize) -> Channel
    requires { (Ringed c.limits c.window) × (n ≡ run_at c) }
    ensures { result ≡ advanced c }
{
    let done = store::last_end_in(c.marks, c.limits.slots, n, c.window.place);
    let place = ring::round(c.window.place + n, c.limits.slots);
    Channel {
        window: moved_window(c.window, place, n, done),
        marks: freed_marks(&c, done),
        ..c
    }
}

// A Data Ack, with the number of units it confirmed: those whose last segment the start has passed.
#[tactic(auto, unfolding(crate::specs::Acks::data_ack_step))]
pub fn data_ack_step(c: Channel, number: u8) -> Stepped
    requires { Ringed c.limits c.window }
    ensures { result ≡ data_ack_step c number }
{
    if c.phase.state != OPEN {
        return refused(c, Refusal::State);
    }
    // Numbers go round at 256, so the number 0 follows 255 and is a number like any other.
    let d = usize::from(number.wrapping_sub(c.window.start));
    if !is_awaited(&c, d) {
        return refused(c, Refusal::Ignored);
    }
    let slots = c.limits.slots;
    let from = c.window.place;
    let noted = note(c, ring::round(from + d, slots), d);
    let n = ring::run(&noted.acked, slots, c.window.flight, from);
    let confirmed = store::ends_in(noted.marks, slots, n, from);
    Stepped {
        channel: advance(noted, n),
        answer: Answer::Done {
            length: 0,
            confirmed,
        },
    }
}
