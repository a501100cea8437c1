// Runs of 0, 1, 63, 64, 65, 127 and 128 marks at every offset on the ring (document 02, A3), counted by `slots::ring::run` as it is compiled: on the
// longest ring, and on shorter ones where the runs fit. What it counts is proved; this program shows that the machine code counts so.
#![tactic(auto)]

ghost use Rattle.std.specs.Prelude.{◌≤◌, ◌<◌};

use slots::ring;
use std::io;

fn main(rt: HostRuntime) -> io::Result<()> {
    say_runs(&rt, 128)?;
    say_run(&rt, 128, 127)?;
    say_run(&rt, 128, 128)?;
    say_runs(&rt, 100)?;
    say_runs(&rt, 65)
}

fn say_runs(rt: &HostRuntime, slots: usize) -> io::Result<()>
    requires { (65 ≤ slots) × (slots ≤ 128) }
{
    for n in [0, 1, 63, 64, 65] {
        say_run(rt, slots, n)?;
    }
    Ok(())
}

fn say_run(rt: &HostRuntime, slots: usize, n: usize) -> io::Result<()>
    requires { (n ≤ slots) × (slots ≤ 128) }
{
    let right = right_offsets(slots, n);
    println!(rt; "{slots} slots, a run of {n}: right at {right} offsets")
}

// At how many of the ring's offsets, from 0 on, a run of n marks is counted as n before it is not.
fn right_offsets(slots: usize, n: usize) -> usize
    requires { (n ≤ slots) × (slots ≤ 128) }
{
    (0..slots)
        .find(|from| !is_right(slots, n, *from))
        .unwrap_or(slots)
}

// Alone on the ring, and with every mark set but the next, those past the ring too; asked for a turn, for two, and for just so many.
fn is_right(slots: usize, n: usize, from: usize) -> bool
    requires { (n ≤ slots) × (from < slots) × (slots ≤ 128) }
{
    let turns = if n == slots { slots * 2 } else { n };
    let alone = marks_of(slots, n, from, false);
    let others = marks_of(slots, n, from, true);
    ring::run(&alone, slots, slots, from) == n
        && ring::run(&alone, slots, slots * 2, from) == turns
        && ring::run(&others, slots, slots, from) == n
        && ring::run(&others, slots, slots * 2, from) == turns
        && ring::run(&others, slots, n, from) == n
}

// The n marks from a place on, and the others too or not, but for the one that follows the run. Each mark has another value than the last.
fn marks_of(slots: usize, n: usize, from: usize, others: bool) -> [u8; 128]
    requires { (from < slots) × (slots ≤ 128) }
{
    let mut marks = [0u8; 128];
    for (i, mark) in marks.iter_mut().enumerate() {
        if is_set(slots, n, from, others, i) {
            *mark = (i * 37 % 255 + 1) as u8;
        }
    }
    marks
}

fn is_set(slots: usize, n: usize, from: usize, others: bool, i: usize) -> bool
    requires { (from < slots) × (slots ≤ 128) × (i < 128) }
{
    if slots <= i {
        return others;
    }
    let on = ring::round(i + (slots - from), slots);
    on < n || others && on != n
}
