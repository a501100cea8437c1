// The record: unsigned numbers and arrays of them only, so that every bit pattern is a value, and a spoilt record is refused.
ghost use Rattle.std.specs.Prelude.{◌≡◌};
ghost use Rattle.channel.specs.Record.{fresh_of, made_of};

// Directions. These, the states and the reasons are numbers and no enums: they lie in the record, where any number may stand.
pub const SENDS: u8 = 0;

pub const RECEIVES: u8 = 1;

// States (000, 4.4.3 and 4.5.2).
pub const CLOSED: u8 = 0;

pub const ENABLED: u8 = 1;

pub const OPEN: u8 = 2;

pub const CLOSING: u8 = 3;

// Why a channel went inactive.
pub const NO_REASON: u8 = 0;

pub const RETRIES: u8 = 1;

pub const LATE_OPEN: u8 = 2;

pub const CONTROL_NUMBER: u8 = 3;

pub const DATA_NUMBER: u8 = 4;

pub const BROKEN_FLAGS: u8 = 5;

pub const UNANSWERED: u8 = 6;

// The protocol ID of SpaceWire-R (000, 4.2.3.3): what a node has unless it is set otherwise.
pub const PROTOCOL: u8 = 5;

// The node's own settings.
#[repr(C)]
#[derive(Clone, Copy)]
pub struct Node {
    pub address: u8,
    pub protocol: u8,
}

// A Source Address prefix (document 02, A7): so many octets, and 0 in those past them.
#[repr(C)]
#[derive(Clone, Copy, PartialEq, Eq)]
pub struct Prefix {
    pub length: u8,
    pub octets: [u8; 15],
}

impl Prefix {
    // Logical addressing.
    pub const NONE: Prefix = Prefix {
        length: 0,
        octets: [0; 15],
    };
}

// Which channel it is, to which node, and whether this end sends or receives. prefix: where that node is, seen from here; it stands in the
// packets that come from it. own: where this node is, seen from there; it stands in every packet that goes out.
#[repr(C)]
#[derive(Clone, Copy)]
pub struct Addresses {
    pub channel: u16,
    pub remote: u8,
    pub direction: u8,
    pub prefix: Prefix,
    pub own: Prefix,
}

// What the settings fix: window k, slots, P (most payload octets), M (most segments in a unit), in ticks the timeouts and the interval of this
// end's own Heartbeat (0: it makes none), and whether Flow Control is used (0 or 1). spare: of a sender, which channel of the table carries on with
// its units (0: none, else its index and 1 more). lead: 1 on a pair, where a unit has a leading octet, else 0 (document 02, A13).
#[repr(C)]
#[derive(Clone, Copy)]
pub struct Limits {
    pub window: usize,
    pub slots: usize,
    pub payload: usize,
    pub segments: usize,
    pub timeout: u16,
    pub closing: u16,
    pub retries: u16,
    pub interval: u16,
    pub flow: u16,
    pub spare: u16,
    pub lead: u16,
}

#[repr(C)]
#[derive(Clone, Copy)]
pub struct Settings {
    pub addresses: Addresses,
    pub limits: Limits,
}

// One packet that is sent alone: 0 none, 1 ready, 2 handed out, 3 ready again. Its timer runs while it is out; tries are the
// resends left to it.
#[repr(C)]
#[derive(Clone, Copy)]
pub struct Lone {
    pub state: u8,
    pub timer: u16,
    pub tries: u16,
}

impl Lone {
    // Nothing is sent.
    pub const NONE: Lone = Lone {
        state: 0,
        timer: 0,
        tries: 0,
    };

    // It becomes ready.
    pub const READY: Lone = Lone {
        state: 1,
        ..Lone::NONE
    };
}

// Where an opening stands. reason: why the channel last went inactive. kept: a Close directive waits for the Open's ack.
// accepted: Data was accepted in this opening. control: the Open or Close that is sent.
#[repr(C)]
#[derive(Clone, Copy)]
pub struct Phase {
    pub state: u8,
    pub reason: u8,
    pub kept: u8,
    pub accepted: u8,
    pub control: Lone,
}

// Flow Control (document 02, A5). Of a receiver: the packet that states a number, its own number and the one that it stated when it was first handed
// out (both 0 but while it is out), and the number of the last packet sent. Of a sender: the number recorded, up to which it may send.
#[repr(C)]
#[derive(Clone, Copy)]
pub struct Flow {
    pub packet: Lone,
    pub number: u8,
    pub stated: u8,
    pub last: u8,
    pub recorded: u8,
}

impl Flow {
    pub const NONE: Flow = Flow {
        packet: Lone::NONE,
        number: 0,
        stated: 0,
        last: 0,
        recorded: 0,
    };
}

// In OPEN: the ticks left until this end makes a Heartbeat (0: it makes none), the Heartbeat that is sent (document 02, A2), and Flow Control.
#[repr(C)]
#[derive(Clone, Copy)]
pub struct Pulse {
    pub left: u16,
    pub beat: Lone,
    pub flow: Flow,
}

impl Pulse {
    // Out of OPEN there is none.
    pub const NONE: Pulse = Pulse {
        left: 0,
        beat: Lone::NONE,
        flow: Flow::NONE,
    };
}

// The window's first number, and the place on the ring of slots where that segment lies: the number does not tell it.
// behind: segments kept before the start (sent and passed, but their unit is not confirmed; or received and not taken).
// A sender has ahead segments from the start on, of which flight were handed out; way of the receiver's last behind are of a
// unit that is not finished.
#[repr(C)]
#[derive(Clone, Copy)]
pub struct Window {
    pub start: u8,
    pub place: usize,
    pub behind: usize,
    pub ahead: usize,
    pub flight: usize,
    pub way: usize,
}

impl Window {
    // An opening begins at number 1, with nothing held.
    pub const FRESH: Window = Window {
        start: 1,
        place: 0,
        behind: 0,
        ahead: 0,
        flight: 0,
        way: 0,
    };
}

// By place: ticks left to a segment that is out (0: none runs), and the resends left to it. closing: the receiver's close timer.
#[repr(C)]
#[derive(Clone, Copy)]
pub struct Timers {
    pub closing: u16,
    pub left: [u16; 128],
    pub tries: [u16; 128],
}

impl Timers {
    pub const NONE: Timers = Timers {
        closing: 0,
        left: [0; 128],
        tries: [0; 128],
    };
}

// marks, by place: 0 for a slot not in use, else the segment's flags and 1 more. acked, by place: not 0 once acknowledged.
#[repr(C)]
#[derive(Clone, Copy)]
pub struct Channel {
    pub addresses: Addresses,
    pub limits: Limits,
    pub phase: Phase,
    pub pulse: Pulse,
    pub window: Window,
    pub timers: Timers,
    pub marks: [u8; 128],
    pub acked: [u8; 128],
}

// A channel with nothing held: its window at number 1, no mark, no timer, no Heartbeat and no reason.
pub fn fresh(addresses: Addresses, limits: Limits, state: u8, control: Lone) -> Channel
    ensures { result ≡ fresh_of addresses limits state control }
{
    Channel {
        addresses,
        limits,
        phase: Phase {
            state,
            reason: NO_REASON,
            kept: 0,
            accepted: 0,
            control,
        },
        pulse: Pulse::NONE,
        window: Window::FRESH,
        timers: Timers::NONE,
        marks: [0; 128],
        acked: [0; 128],
    }
}

// As settings make it: CLOSED and empty.
pub fn made(s: Settings) -> Channel
    ensures { result ≡ made_of s }
{
    fresh(s.addresses, s.limits, CLOSED, Lone::NONE)
}
