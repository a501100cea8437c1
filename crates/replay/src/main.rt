// Replays a trace from standard input (document 01, Replay program): a line for each record, then `end ok`, or `end short` where a record is cut.
#![tactic(auto)]

ghost use Rattle.std.specs.Prelude.{◌≤◌};

use channel::{Channel, Node};
use engine::reading::{LONGEST, feed, is_cut, room};
use engine::{Kept, step, table_of};
use std::io;
use std::io::Read;

// The replay's own address and protocol ID, the other end's address, and the numbers of the two channels.
const OWN: Node = Node {
    address: 64,
    protocol: 238,
};

const REMOTE: u8 = 65;

const FIRST: u16 = 1;

const SECOND: u16 = 2;

// The octets that are read at once.
const PIECE: usize = 65536;

// The channels and what is lent with them, how many records were done, and the octets of the next one: so many are held at the front of the buffer.
#[derive(Drop)]
struct Run {
    table: [Channel; 2],
    mem: [u8; 256],
    lens: [u16; 16],
    lines: [u8; 51],
    done: u64,
    buffer: [u8; LONGEST],
    held: usize,
}

fn main(rt: HostRuntime) -> io::Result<()> {
    let mut run = Run {
        table: table_of(REMOTE, FIRST, SECOND),
        mem: [0; 256],
        lens: [0; 16],
        lines: [0; 51],
        done: 0,
        buffer: room(),
        held: 0,
    };
    println!(rt; "rec answer")?;
    if run.replay(&rt)? {
        println!(rt; "end ok")
    } else {
        println!(rt; "end short")
    }
}

impl Run {
    // One piece after another; true if the trace ended between two records. A read that fails is no end. A proved loop has to end, and nothing says
    // that a trace does: no trace has as many pieces as the loop would count.
    fn replay(&mut self, rt: &HostRuntime) -> io::Result<bool> {
        let mut piece = [0; PIECE];
        for _ in 0..u64::MAX {
            let Ok(n) = rt.stdin().read(&mut piece) else {
                return Ok(false);
            };
            if n == 0 {
                return Ok(!is_cut(self.held, &self.buffer));
            }
            self.read_on(rt, &piece[..n])?;
        }
        Ok(false)
    }

    // The records that become whole with a piece. The reader says where it goes on, so that no index is counted.
    fn read_on(&mut self, rt: &impl Print, piece: &[u8]) -> io::Result<()> {
        let mut at = 0;
        while at < piece.len() {
            let fed = feed(self.held, piece, at, &mut self.buffer);
            self.held = fed.held;
            if let Some(kind) = fed.kind {
                self.perform(rt, kind)?;
            }
            at = fed.next;
        }
        Ok(())
    }

    // The record in the buffer is done, and its line is said: its place in the trace, from 1, and the answer's number.
    fn perform(&mut self, rt: &impl Print, kind: u16) -> io::Result<()>
        requires { (4 ≤ self.old.held) × (self.old.held ≤ 65539) }
    {
        let mut out = [0; 64];
        let record = &self.buffer[..self.held];
        let Kept { told, table } = step(
            self.table,
            &mut self.mem,
            &mut self.lens,
            &mut self.lines,
            OWN,
            kind,
            &record[4..],
            &mut out,
        );
        self.table = table;
        self.done = self.done.wrapping_add(1);
        println!(rt; "{} {}", self.done, u32::from(told.answer))
    }
}
