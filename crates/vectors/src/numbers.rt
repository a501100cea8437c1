// The unstarred numbers of document 01 that the ends give.
use crate::asking::{Facing, OWN, RECEIVER, SENDER};
use channel::Limits;
use channel::record::PROTOCOL;
use engine::request::{ARRIVAL, NEXT, OPEN, TAKE, TRANSFER};
use engine::tables::LIMITS;
use packet::fields::{VERSION, WHOLE};
use packet::{Fields, Kind};
use std::io;

pub fn print_numbers(rt: &impl Print) -> io::Result<()> {
    println!(rt;
        "\nP 16, M 4: a unit of 64 octets is answered {}, of 65 {}",
        transferred(&[0; 65]),
        transferred(&[0; 66])
    )?;
    println!(rt;
        "k 64, segment 1 repeated: at start 193 it is answered {}, at 194 {}",
        repeated(64, 193),
        repeated(64, 194)
    )?;
    println!(rt;
        "k 128, segment 1 repeated: at start 129 it is answered {}, at 130 {}",
        repeated(128, 129),
        repeated(128, 130)
    )
}

// What a transfer is answered by a sender that was opened: channel 0, and then the unit.
fn transferred(body: &[u8]) -> u32 {
    let mut ends = Facing::<256, 16>::new(LIMITS);
    ends.does(OPEN, &[SENDER]);
    ends.does(NEXT, &[]);
    ends.does(ARRIVAL, &empty_packet(Kind::ControlAck, 0));
    let (answer, _) = ends.ask(TRANSFER, body, &mut [0; 64]);
    u32::from(answer)
}

// What the first segment is answered where it comes again: the receiver was sent units of one empty segment, and has given each away, so that the
// window has moved on to a start.
fn repeated(window: usize, start: u8) -> u32 {
    let mut ends = Facing::<4096, 256>::new(Limits {
        window,
        slots: 128,
        ..LIMITS
    });
    ends.does(OPEN, &[RECEIVER]);
    ends.does(ARRIVAL, &empty_packet(Kind::Open, 0));
    for segment in 1..start {
        ends.does(ARRIVAL, &empty_packet(Kind::Data, segment));
        ends.does(TAKE, &[RECEIVER]);
    }
    let (answer, _) = ends.ask(ARRIVAL, &empty_packet(Kind::Data, 1), &mut [0; 64]);
    u32::from(answer)
}

// A packet without payload, from the other end.
fn empty_packet(kind: Kind, number: u8) -> [u8; 12] {
    let mut octets = [0; 12];
    let fields = Fields {
        destination: OWN,
        protocol: PROTOCOL,
        version: VERSION,
        secondary: 0,
        flags: WHOLE,
        kind: u8::from(kind),
        channel: 1,
        number,
        reserved: 0,
        source: OWN,
    };
    let _ = packet::write_packet(fields, b"", b"", &mut octets);
    octets
}
