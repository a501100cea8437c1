// What a survey decides: the record that is served, or the refusal.
ghost use Rattle.std.specs.Prelude.{◌≡◌};
ghost use Rattle.table.specs.Looking.{missing};
ghost use Rattle.table.specs.Surveying.{is_sound, refused_by, served_by, decided, judged};

use crate::looking::{Look, Sought, UNFIT};
use crate::surveying::{Spot, Survey};
use channel::{Answer, Channel, Refusal};
use lines::is_fit;

// What a call answers, and the index of the channel that it served; as many as the table has records where it served none: the definition
// `index_served` tells it so, and C is told the same number.
#[derive(Clone, Copy)]
pub struct Told {
    pub answer: Answer,
    pub index: usize,
}

// The channel that was served, as it is stored again, and what is told of it.
#[derive(Clone, Copy)]
pub struct Placed {
    pub channel: Channel,
    pub told: Told,
}

// The index of the record that is served, or what is told where it is no index of the table; and what was looked for and found. No `Option` or
// `Result`: the definition `serving` of `walks` takes a decision with both, and serves where the index is one of the table's.
#[derive(Clone, Copy)]
pub struct Decision {
    pub at: usize,
    pub told: Told,
    pub look: Look,
    pub spot: Spot,
}

// Whether the table passes the test for 13, and what is told if it does not. No `Result`: what is told stands beside the test, whatever that gives,
// as the definition `judged` has it.
#[derive(Clone, Copy)]
pub struct Verdict {
    pub ok: bool,
    pub told: Told,
}

// The table has 1 record at least, all stand, the lent lengths and memory are theirs to the last, and the lines are of such a table.
#[tactic(auto, unfolding(crate::specs::Surveying::is_sound))]
fn is_sound(v: Survey, n: usize, m: usize, l: usize) -> bool
    ensures { result ≡ is_sound v n m l }
{
    1 <= n && v.sound && v.slots == l && v.octets == m && is_fit(&v.lines, n)
}

// The refusal where no record suits.
fn refusal(sought: Sought) -> Refusal
    ensures { result ≡ missing sought }
{
    match sought {
        Sought::Index(_) | Sought::Question(_) | Sought::Packet { .. } => Refusal::NoChannel,
        Sought::Ready => Refusal::Nothing,
        Sought::Nobody(why) => why,
    }
}

fn refuse(v: Survey, n: usize, why: Refusal) -> Decision
    ensures { result ≡ refused_by v n why }
{
    Decision {
        at: n,
        told: Told {
            answer: Answer::Refused(why),
            index: n,
        },
        look: v.look,
        spot: v.spot,
    }
}

fn serve(v: Survey) -> Decision
    ensures { result ≡ served_by v }
{
    Decision {
        at: v.spot.at,
        told: Told {
            answer: Answer::Refused(Refusal::NoChannel),
            index: v.spot.at,
        },
        look: v.look,
        spot: v.spot,
    }
}

// Of a table of n records with m octets and l lengths: 13 before anything else.
#[tactic(auto, unfolding(crate::specs::Surveying::decided))]
pub fn decide(v: Survey, n: usize, m: usize, l: usize) -> Decision
    ensures { result ≡ decided v n m l }
{
    if !is_sound(v, n, m, l) {
        return refuse(v, n, Refusal::Settings);
    }
    if v.spot.grade < UNFIT {
        return serve(v);
    }
    refuse(v, n, refusal(v.look.sought))
}

pub fn judge(v: Survey, n: usize, m: usize, l: usize) -> Verdict
    ensures { result ≡ judged v n m l }
{
    Verdict {
        ok: is_sound(v, n, m, l),
        told: Told {
            answer: Answer::Refused(Refusal::Settings),
            index: n,
        },
    }
}
