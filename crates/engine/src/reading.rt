// The records of a trace, read from octets that come in pieces, cut anywhere. The octets of the record that is being read lie at the front of a lent
// buffer that has room for the longest, and a number says how many they are: 0 to begin with.
ghost use Rattle.std.specs.Prelude.{◌≡◌, ◌≤◌, ◌<◌, ◌+◌, length, take, ltb};
ghost use Rattle.engine.specs.Trace.{is_whole, little_at};
ghost use Rattle.engine.specs.Reading.{unfinished, held_in, Feeds, unread};

// Four octets of head, and 65,535 of body.
pub const LONGEST: usize = 65539;

// kind: of the record that became whole, where one did; its body lies in the buffer from octet 4 up to held. next: where the piece goes on.
#[derive(Clone, Copy)]
pub struct Fed {
    pub kind: Option<u16>,
    pub held: usize,
    pub next: usize,
}

// A buffer for the longest record.
pub fn room() -> [u8; LONGEST]
    ensures { 65539 ≡ length result }
{
    [0; LONGEST]
}

// Octets of the piece from an index on, up to the end of a record, or of the piece. A buffer that may be too short for a record takes none.
pub fn feed(held: usize, piece: &[u8], from: usize, buffer: &mut [u8]) -> Fed
    ensures feeds { 65539 ≤ length buffer.old → Feeds buffer.old held piece.now from result buffer.new }
    ensures value { length buffer.old < 65539 → (result ≡ unread held from) × (buffer.new ≡ buffer.old) }
{
    if buffer.len() < LONGEST {
        return Fed {
            kind: None,
            held,
            next: from,
        };
    }
    // The count is kept by hand: it is given when the loop ends too, and a zip of two ranges, with a sum behind it, is no plainer.
    let mut n = still_held(held, buffer);
    for at in from..piece.len() {
        buffer[n] = piece[at];
        n += 1;
        if ends_record(n, buffer) {
            return Fed {
                kind: Some(little(buffer, 2)),
                held: n,
                next: at + 1,
            };
        }
    }
    Fed {
        kind: None,
        held: n,
        next: from.max(piece.len()),
    }
}

// At the end of the input: whether it ends within a record.
pub fn is_cut(held: usize, buffer: &[u8]) -> bool
    ensures { 65539 ≤ length buffer.now → result ≡ ltb 0 (length (held_in held buffer.now)) }
{
    buffer.len() < LONGEST || 0 < still_held(held, buffer)
}

// How many octets of a record that is not whole are held. A record that is whole was given; the next one begins.
#[tactic(auto, using(crate::proofs::ReadingLaws::held_on, crate::proofs::ReadingLaws::not_held))]
fn still_held(held: usize, buffer: &[u8]) -> usize
    requires { 65539 ≤ length buffer.now }
    ensures { (result ≡ unfinished held buffer.now) × (result < 65539) }
{
    let length = usize::from(little(buffer, 0));
    if held < 4 + length { held } else { 0 }
}

// The first so many octets are a record, head and body.
#[tactic(auto, using(crate::proofs::ReadingLaws::whole_at_lem))]
fn ends_record(held: usize, buffer: &[u8]) -> bool
    requires { (held ≤ 65539) × (65539 ≤ length buffer.now) }
    ensures { (result ≡ is_whole (take held buffer.now)) × (little_at buffer.now 0 < 65536) }
{
    let length = usize::from(little(buffer, 0));
    held == 4 + length
}

// The number in two octets, the least significant first.
fn little(octets: &[u8], at: usize) -> u16
    requires { at + 1 < length octets.now }
    ensures { result ≡ little_at octets.now at }
{
    u16::from_le_bytes([octets[at], octets[at + 1]])
}
