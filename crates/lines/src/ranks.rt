// The three lines, in lent octets that have passed the test.
ghost use Rattle.std.specs.Prelude.{◌≡◌, ◌<◌, length};
ghost use Rattle.lines.specs.Lines.{no_lines, relist_in, left_from, relist_all, served_from};
ghost use Rattle.lines.specs.Grades.{grade_in, grade_of};
ghost use Rattle.lines.specs.Fit.{Fit, relist_fit};

use crate::fit::is_fit;
use crate::line::{leave, place, relist_line};

// Of which ranks a channel has a packet ready: it waits in the line of each (document 02, A4).
#[derive(Clone, Copy)]
pub struct Ranks {
    // Rank 0: Control, the Heartbeat or Flow Control.
    pub control: bool,
    // Rank 1: resent Data.
    pub again: bool,
    // Rank 2: new Data.
    pub fresh: bool,
}

impl Ranks {
    // It waits in no line.
    pub const NONE: Ranks = Ranks {
        control: false,
        again: false,
        fresh: false,
    };
}

// The grade of a channel that stands in no line with a packet of its rank ready. The definition `grade_of` holds the number, so a grade is no Option.
pub const IDLE: usize = 48;

// The grade of channel i, by the ranks that it has a packet ready of: the least is served next.
#[tactic(auto, unfolding(crate::specs::Grades::grade_of))]
pub fn grade(lines: &[u8], i: usize, w: Ranks) -> usize
    requires { (length lines.now ≡ 51) × (i < 16) }
    ensures { result ≡ grade_of i w.control w.again w.fresh lines.now }
{
    let x = i as u8;
    let data = grade_in(lines, 1, x, w.again).min(grade_in(lines, 2, x, w.fresh));
    grade_in(lines, 0, x, w.control).min(data)
}

#[tactic(auto, using(crate::proofs::CodeLaws::graded, crate::proofs::CodeLaws::not_graded))]
fn grade_in(lines: &[u8], rank: usize, i: u8, ready: bool) -> usize
    requires { (length lines.now ≡ 51) × (rank < 3) }
    ensures { result ≡ grade_in rank i ready lines.now }
{
    if !ready {
        return IDLE;
    }
    let at = 17 * rank;
    match place(&lines[at..at + 17], i) {
        Some(p) => rank * 16 + p,
        None => IDLE,
    }
}

// After a call that left channel i with a packet ready of these ranks, and of no other.
#[tactic(auto, unfolding(crate::specs::Lines::relist_all), using(crate::proofs::FitLaws::relist_fit_lem))]
pub fn relist(lines: &mut [u8], i: usize, w: Ranks)
    requires { (Fit 16 lines.old) × (i < 16) }
    ensures { lines.new ≡ relist_all i w.control w.again w.fresh lines.old }
{
    // Each rank stands beside its field: a loop over three such pairs is no plainer.
    let x = i as u8;
    relist_in(lines, 0, x, w.control);
    relist_in(lines, 1, x, w.again);
    relist_in(lines, 2, x, w.fresh);
}

// After a hand-out of channel i's packet of a rank: it leaves that line first, and so rejoins at the tail.
#[tactic(auto, unfolding(crate::specs::Lines::served_from), using(crate::proofs::FitLaws::left_fit))]
pub fn serve(lines: &mut [u8], rank: usize, i: usize, w: Ranks)
    requires { (Fit 16 lines.old) × (rank < 3) × (i < 16) }
    ensures { lines.new ≡ served_from rank i w.control w.again w.fresh lines.old }
{
    leave_from(lines, rank, i as u8);
    relist(lines, i, w);
}

fn relist_in(lines: &mut [u8], rank: usize, i: u8, ready: bool)
    requires { (Fit 16 lines.old) × (rank < 3) × (i < 16) }
    ensures { lines.new ≡ relist_in rank i ready lines.old }
{
    let at = 17 * rank;
    relist_line(&mut lines[at..at + 17], i, ready);
}

fn leave_from(lines: &mut [u8], rank: usize, i: u8)
    requires { (Fit 16 lines.old) × (rank < 3) }
    ensures { lines.new ≡ left_from rank i lines.old }
{
    let at = 17 * rank;
    leave(&mut lines[at..at + 17], i);
}

// The lines by value, for a tick to carry through its round; what is none stays.
#[tactic(auto, unfolding(crate::specs::Fit::relist_fit), using(crate::proofs::FitLaws::fit_facts))]
pub fn relisted(mut lines: [u8; 51], i: usize, w: Ranks) -> [u8; 51]
    ensures { result ≡ relist_fit i w.control w.again w.fresh lines }
{
    if i < 16 && is_fit(&lines, 16) {
        relist(&mut lines, i, w);
    }
    lines
}

pub fn read(lines: &[u8]) -> [u8; 51]
    requires { length lines.now ≡ 51 }
    ensures { result ≡ lines.now }
{
    let mut a = [0; 51];
    a.copy_from_slice(lines);
    a
}

pub fn write(lines: &mut [u8], a: [u8; 51])
    requires { length lines.old ≡ 51 }
    ensures { lines.new ≡ a }
{
    lines.copy_from_slice(&a);
}

// Nobody waits, as settings leave it.
pub fn clear(lines: &mut [u8])
    requires { length lines.old ≡ 51 }
    ensures { lines.new ≡ no_lines }
{
    lines.fill(0);
}
