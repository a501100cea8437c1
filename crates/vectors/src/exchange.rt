// The exchanges of 000, Appendix B, between a sender and a receiver: no error, a lost Data packet, a lost Ack, Flow Control. The figures are not in
// the text; the packets are those that its captions and section 4 lead to.
use crate::asking::{Facing, RECEIVER, SENDER};
use crate::shown::Shown;
use channel::Limits;
use engine::request::{ARRIVAL, CLOSE, NEXT, OPEN, TAKE, TICK, TRANSFER};
use engine::tables::LIMITS;
use std::io;
use std::io::Write;

// What is done in its turn.
#[derive(Clone, Copy)]
enum Turn {
    // Both ends are opened.
    Open,
    // The unit "fan 1", or another of these, is given to the sender.
    Give(u8),
    // A packet of the sender goes over, if it has one, with its reply.
    Round,
    Tick,
    // The receiver's oldest unit is taken.
    Take,
    // The sender is closed.
    Close,
}

// Three units are given and go over; in as many ticks as the timeout, what is not acknowledged is ready again, and goes over; the units are taken.
const THREE_UNITS: [Turn; 18] = [
    Turn::Open,
    Turn::Round,
    Turn::Give(1),
    Turn::Give(2),
    Turn::Give(3),
    Turn::Round,
    Turn::Round,
    Turn::Round,
    Turn::Tick,
    Turn::Tick,
    Turn::Tick,
    Turn::Tick,
    Turn::Round,
    Turn::Take,
    Turn::Take,
    Turn::Take,
    Turn::Close,
    Turn::Round,
];

// Five units are given, and four fill the slots: the fifth waits until one is taken and Flow Control has told it. The sender's room is four slots
// too, so that the fifth unit is given once Acks have come.
const FIVE_UNITS: [Turn; 22] = [
    Turn::Open,
    Turn::Round,
    Turn::Give(1),
    Turn::Give(2),
    Turn::Give(3),
    Turn::Give(4),
    Turn::Round,
    Turn::Round,
    Turn::Round,
    Turn::Round,
    Turn::Give(5),
    Turn::Round,
    Turn::Take,
    Turn::Round,
    Turn::Round,
    Turn::Take,
    Turn::Take,
    Turn::Take,
    Turn::Take,
    Turn::Round,
    Turn::Close,
    Turn::Round,
];

// Both ends, and what the link loses: the Data packet and the Ack with these numbers, once.
#[derive(Drop)]
struct Link<const M: usize, const L: usize> {
    ends: Facing<M, L>,
    lost: Option<u8>,
    unheard: Option<u8>,
}

pub fn print_exchanges(rt: &impl Print) -> io::Result<()> {
    println!(rt; "000, Appendix B, no error:")?;
    exchange(rt, None, None)?;
    println!(rt; "000, Appendix B, a Data packet is lost:")?;
    exchange(rt, Some(2), None)?;
    println!(rt; "000, Appendix B, an Ack is lost:")?;
    exchange(rt, None, Some(2))?;
    println!(rt; "000, Appendix B, Flow Control, with four slots:")?;
    flow_exchange(rt)
}

fn exchange(rt: &impl Print, lost: Option<u8>, unheard: Option<u8>) -> io::Result<()> {
    let mut link = Link {
        ends: Facing::<256, 16>::new(LIMITS),
        lost,
        unheard,
    };
    link.play(rt, &THREE_UNITS)
}

fn flow_exchange(rt: &impl Print) -> io::Result<()> {
    let mut link = Link {
        ends: Facing::<128, 8>::new(Limits {
            slots: 4,
            flow: 1,
            ..LIMITS
        }),
        lost: None,
        unheard: None,
    };
    link.play(rt, &FIVE_UNITS)
}

impl<const M: usize, const L: usize> Link<M, L> {
    fn play(&mut self, rt: &impl Print, turns: &[Turn]) -> io::Result<()> {
        for turn in turns {
            self.act(rt, *turn)?;
        }
        Ok(())
    }

    fn act(&mut self, rt: &impl Print, turn: Turn) -> io::Result<()> {
        match turn {
            Turn::Open => {
                self.ends.does(OPEN, &[RECEIVER]);
                self.ends.does(OPEN, &[SENDER]);
            }
            Turn::Give(n) => self
                .ends
                .does(TRANSFER, &[SENDER, b'f', b'a', b'n', b' ', b'0' + n % 10]),
            Turn::Round => self.round(rt)?,
            Turn::Tick => self.ends.does(TICK, &[]),
            Turn::Take => self.take(rt)?,
            Turn::Close => self.ends.does(CLOSE, &[SENDER]),
        }
        Ok(())
    }

    fn take(&mut self, rt: &impl Print) -> io::Result<()> {
        let mut out = [0; 64];
        let (_, unit) = self.ends.ask(TAKE, &[RECEIVER], &mut out);
        // A unit is octets, and no format takes those as they are.
        print!(rt; "  taken: ")?;
        io::writer(rt).write_all(unit)?;
        println!(rt)
    }

    // Unless the link loses the one or the other.
    fn round(&mut self, rt: &impl Print) -> io::Result<()> {
        let mut out = [0; 64];
        let (_, packet) = self.ends.ask(NEXT, &[], &mut out);
        if packet.is_empty() {
            return Ok(());
        }
        print!(rt; "  -> {}", Shown(packet))?;
        if loses(&mut self.lost, packet) {
            return println!(rt; " lost");
        }
        let mut back = [0; 13];
        let (answer, reply) = self.ends.ask(ARRIVAL, packet, &mut back);
        print!(rt; " answered {}, <- {}", u32::from(answer), Shown(reply))?;
        if loses(&mut self.unheard, reply) {
            return println!(rt; " lost");
        }
        let (answer, _) = self.ends.ask(ARRIVAL, reply, &mut [0; 12]);
        println!(rt;
            " answered {}, confirms {}",
            u32::from(answer),
            answer.confirmed()
        )
    }
}

// A packet with the number that is to be lost, which is lost once.
fn loses(number: &mut Option<u8>, packet: &[u8]) -> bool {
    number.take_if(|n| packet.get(7) == Some(n)).is_some()
}
