// The survey of a table, record by record: each tested, the parts of the lent memory summed, and the record found that suits best.
ghost use Rattle.std.specs.Prelude.{◌≡◌, ◌*◌, ◌≤◌, ◌<◌, take, drop};
ghost use Rattle.table.specs.Surveying.{looked_at, started, begun, unsound, better, noted, survey_one};
ghost use Rattle.channel.specs.Standing.{standing};

use crate::looking::{Look, UNFIT, grade};
use channel::{Channel, Limits};
use condition::stands;
use lines::{is_fit, read};

// The most records of a table.
pub const MOST_RECORDS: usize = 16;

// How many of n records, or of n settings, are looked at: one more than there may be shows that there are too many.
pub fn looked_at(n: usize) -> usize
    ensures { result ≡ looked_at n }
{
    n.min(MOST_RECORDS + 1)
}

// No table of sound records has more slots, nor more octets.
pub const MOST_SLOTS: usize = 4096;

pub const MOST_OCTETS: usize = 2097152;

// How many octets the lines have.
pub const LINES: usize = 51;

// A record of the table: its index, where its lengths and its octets begin, and how well it suits.
#[derive(Clone, Copy)]
pub struct Spot {
    pub at: usize,
    pub slot: usize,
    pub octet: usize,
    pub grade: usize,
}

// What the records so far have shown: what is looked for, the lines, whether they are lines and all records stand, how many slots and octets they have together, and the best.
// No `Option` in place of `sound`: a table that fails is told what was looked for, too (`refused_by`).
#[derive(Clone, Copy)]
pub struct Survey {
    pub look: Look,
    pub lines: [u8; 51],
    pub sound: bool,
    pub slots: usize,
    pub octets: usize,
    pub spot: Spot,
}

// How many octets a channel's slots have.
pub fn area(l: Limits) -> usize
    requires { (l.slots ≤ 128) × (l.payload ≤ 1024) }
    ensures { (result ≡ l.slots * l.payload) × (result ≤ 131072) }
{
    l.slots * l.payload
}

fn start(look: Look, lines: [u8; 51], sound: bool) -> Survey
    ensures { result ≡ started look lines sound }
{
    Survey {
        look,
        lines,
        sound,
        slots: 0,
        octets: 0,
        spot: Spot {
            at: 0,
            slot: 0,
            octet: 0,
            grade: UNFIT,
        },
    }
}

pub fn begin(look: Look, lines: &[u8]) -> Survey
    ensures { result ≡ begun look lines.now }
{
    if is_fit(lines, MOST_RECORDS) {
        start(look, read(lines), true)
    } else {
        start(look, [0; 51], false)
    }
}

// The record stands with its own lengths, those from a slot on.
#[tactic(auto, using(crate::proofs::OneLaws::out_of_reach))]
fn stands_at(c: Channel, lens: &[u16], slot: usize) -> bool
    ensures { result ≡ standing c (take c.limits.slots (drop slot lens.now)) }
{
    let slots = c.limits.slots;
    slot <= lens.len() && slots <= lens.len() - slot && stands(c, &lens[slot..slot + slots])
}

fn choose(old: Spot, new: Spot) -> Spot
    ensures { result ≡ better old new }
{
    if new.grade < old.grade { new } else { old }
}

// The record at index j stands: it is counted, and it is the best if it suits better than those before it.
fn note(v: Survey, c: Channel, j: usize) -> Survey
    requires { (j < 16) × (c.limits.slots ≤ 128) × (c.limits.payload ≤ 1024) × (v.slots ≤ 4294967296) × (v.octets ≤ 2097152) }
    ensures { result ≡ noted v c j }
{
    let here = Spot {
        at: j,
        slot: v.slots,
        octet: v.octets,
        grade: grade(v.look, v.lines, j, c),
    };
    Survey {
        sound: true,
        slots: v.slots + c.limits.slots,
        octets: v.octets + area(c.limits),
        spot: choose(v.spot, here),
        ..v
    }
}

// One record more. Where it lacks its condition, or there are too many, nothing after it counts.
#[tactic(auto, unfolding(crate::specs::Surveying::survey_one))]
pub fn survey_one(v: Survey, c: Channel, lens: &[u16], j: usize) -> Survey
    ensures { result ≡ survey_one v c lens.now j }
{
    if !v.sound {
        return v;
    }
    if j < MOST_RECORDS
        && v.slots <= MOST_SLOTS
        && v.octets <= MOST_OCTETS
        && stands_at(c, lens, v.slots)
    {
        note(v, c, j)
    } else {
        Survey { sound: false, ..v }
    }
}
