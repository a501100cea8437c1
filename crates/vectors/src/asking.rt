// A node whose two channels face each other: what channel 0 sends, channel 1 receives. All is done by the node's calls, on records that calls
// alone have made.
use channel::record::{PROTOCOL, RECEIVES, SENDS, made};
use channel::{Addresses, Answer, Channel, Limits, Node, Prefix, Settings};
use engine::{Kept, step};

// The node's address, and for both its channels the other end's.
pub const OWN: u8 = 65;

// The two channels, as a request names them.
pub const SENDER: u8 = 0;

pub const RECEIVER: u8 = 1;

// L lengths, one for each slot of the two channels, and M octets, a payload for each: of another memory the node answers 13.
#[derive(Drop)]
pub struct Facing<const M: usize, const L: usize> {
    table: [Channel; 2],
    mem: [u8; M],
    lens: [u16; L],
    lines: [u8; 51],
}

impl<const M: usize, const L: usize> Facing<M, L> {
    pub fn new(limits: Limits) -> Facing<M, L> {
        Facing {
            table: [end(SENDS, limits), end(RECEIVES, limits)],
            mem: [0; M],
            lens: [0; L],
            lines: [0; 51],
        }
    }

    // A record of a replay, by its kind and its body; with the answer what was written.
    pub fn ask<'a>(&mut self, kind: u16, body: &[u8], out: &'a mut [u8]) -> (Answer, &'a [u8]) {
        let node = Node {
            address: OWN,
            protocol: PROTOCOL,
        };
        let Kept { told, table } = step(
            self.table,
            &mut self.mem,
            &mut self.lens,
            &mut self.lines,
            node,
            kind,
            body,
            out,
        );
        self.table = table;
        let written = told.answer.length().min(out.len());
        (told.answer, &out[..written])
    }

    // What is answered and written is not looked at.
    pub fn does(&mut self, kind: u16, body: &[u8]) {
        let _ = self.ask(kind, body, &mut [0; 64]);
    }
}

fn end(direction: u8, limits: Limits) -> Channel {
    made(Settings {
        addresses: Addresses {
            channel: 1,
            remote: OWN,
            direction,
            prefix: Prefix::NONE,
            own: Prefix::NONE,
        },
        limits,
    })
}
