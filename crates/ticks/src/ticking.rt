// A tick of the whole node: every channel is ticked, each alone, and listed by what is then ready.
ghost use Rattle.std.specs.Prelude.{◌≡◌};
ghost use Rattle.channel.specs.Asked.{Ringed};
ghost use Rattle.ticks.specs.Ticking.{ticked_by, first_by, answer_by, next_at, lined_by, round_by, turned_by};
ghost use Rattle.walks.specs.Sweep.{Every};
ghost use Rattle.walks.specs.Serving.{changes, telling};
ghost use Rattle.channel.specs.declared.answer.Refusal.TheVariants as refusal;
ghost use Rattle.channel.specs.declared.record.Channel.{Channel as Record};
ghost use Rattle.table.specs.declared.looking.Sought.TheVariants as sought;
ghost use Rattle.table.specs.Looking.{seeking};
ghost use Rattle.table.specs.Serving.{blank, told_of};
ghost use Rattle.table.specs.Surveying.{begun};
ghost use Rattle.ticks.specs.Ticks.{ticks, swept_table, swept_round, tick_start, tick_end, end_lines, tick_index, ticked};

use channel::record::SENDS;
use channel::{Answer, Channel, Refusal, Ticked};
use lines::{read, relisted, write};
use table::beginning::survey;
use table::deciding::judge;
use table::looking::seek;
use table::surveying::{LINES, MOST_RECORDS, begin};
use table::waiting::waiting;
use table::{Sought, Survey, Told};

// Of the channels ticked so far that went inactive: the lowest index, and the reason. While there is none, the index is that of the next
// channel, so it counts too, as the definition `first_by` has it.
#[derive(Clone, Copy)]
pub struct First {
    pub index: usize,
    pub reason: Option<u8>,
}

// The first that went inactive; the index of the next channel, and the lines, by value.
#[derive(Clone, Copy)]
pub struct Round {
    pub first: First,
    pub at: usize,
    pub lines: [u8; 51],
}

// A channel after the tick, and the round with it.
#[derive(Clone, Copy)]
pub struct Turned {
    pub channel: Channel,
    pub round: Round,
}

#[tactic(auto, unfolding(crate::specs::Ticking::ticked_by))]
fn tick_one(c: Channel) -> Ticked
    requires { Ringed c.limits c.window }
    ensures { result ≡ ticked_by c }
{
    if c.addresses.direction == SENDS {
        sender::tick_step(c)
    } else {
        receiver::tick_step(c)
    }
}

// The first that goes inactive is told; those after it do not change that.
#[tactic(auto, unfolding(crate::specs::Ticking::first_by))]
fn first_by(x: Ticked, r: First) -> First
    ensures { result ≡ first_by x r }
{
    if r.reason.is_some() {
        return r;
    }
    if x.inactive {
        return First {
            reason: Some(x.channel.phase.reason),
            ..r
        };
    }
    First {
        index: next_at(r.index),
        ..r
    }
}

fn next_at(at: usize) -> usize
    ensures { result ≡ next_at at }
{
    if at < MOST_RECORDS { at + 1 } else { at }
}

// The channel joins and leaves by what the tick has left of it.
fn line_by(lines: [u8; 51], at: usize, c: Channel) -> [u8; 51]
    ensures { result ≡ lined_by at c lines }
{
    relisted(lines, at, waiting(c))
}

fn round_by(x: Ticked, r: Round) -> Round
    ensures { result ≡ round_by x r }
{
    Round {
        first: first_by(x, r.first),
        at: next_at(r.at),
        lines: line_by(r.lines, r.at, x.channel),
    }
}

// The next channel of the table.
fn tick_next(c: Channel, r: Round) -> Turned
    requires { Ringed c.limits c.window }
    ensures { result ≡ turned_by c r }
{
    let x = tick_one(c);
    Turned {
        channel: x.channel,
        round: round_by(x, r),
    }
}

// A tick is for no channel.
fn tick_begin(lines: &[u8]) -> Survey
    ensures { result ≡ begun (seeking (sought.Nobody refusal.NoChannel)) lines.now }
{
    begin(seek(Sought::Nobody(Refusal::NoChannel)), lines)
}

fn tick_start(lines: &[u8]) -> Round
    ensures { result ≡ tick_start lines.now }
{
    let lines = if lines.len() == LINES {
        read(lines)
    } else {
        [0; 51]
    };
    Round {
        first: First {
            index: 0,
            reason: None,
        },
        at: 0,
        lines,
    }
}

// 9 if some channel went inactive, with the reason and the index of the first.
fn tell(r: First) -> Told
    ensures { result ≡ told_of r.index (answer_by r.reason) }
{
    let answer = match r.reason {
        Some(reason) => Answer::Inactive(reason),
        None => Answer::Done {
            length: 0,
            confirmed: 0,
        },
    };
    Told {
        answer,
        index: r.index,
    }
}

fn tick_end(r: Round, lines: &mut [u8]) -> Told
    ensures { (result ≡ tick_end r) × (lines.new ≡ end_lines r lines.old) }
{
    if lines.len() == LINES {
        write(lines, r.lines);
    }
    tell(r.first)
}

// The form Sweep of docs/WALKS.md, to the letter.
fn tick_all(t: &mut [Channel], start: Round) -> Round
    requires { Every blank ticks t.old }
    ensures { (result ≡ swept_round t.old start) × (t.new ≡ swept_table t.old start) }
{
    let mut a = start;
    let mut i = 0;
    while i < t.len() {
        let s = tick_next(t[i], a);
        t[i] = s.channel;
        a = s.round;
        i = i + 1;
    }
    a
}

// All are ticked, also where one goes inactive. The form Sweeping of docs/WALKS.md, to the letter.
pub fn tick(t: &mut [Channel], mem: &[u8], lens: &[u16], lines: &mut [u8]) -> Told
    ensures { changes result t.new lines.new ≡ telling (told_of (tick_index t.old mem.now lens.now lines.old)) (ticked t.old mem.now lens.now lines.old) }
{
    let a = tick_begin(lines);
    let v = survey(t, lens, a);
    let d = judge(v, t.len(), mem.len(), lens.len());
    if d.ok {
        let k = tick_start(lines);
        let z = tick_all(t, k);
        let r = tick_end(z, lines);
        r
    } else {
        d.told
    }
}
