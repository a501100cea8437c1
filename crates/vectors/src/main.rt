// Runs what document 01 gives as numbers to check and is not proved of a definition, shows one packet written and read, and plays the exchanges of
// 000, Appendix B.
#![tactic(auto)]

mod asking;
mod exchange;
mod numbers;
mod shown;

use channel::record::PROTOCOL;
use packet::fields::{FIRST, LAST, LEAST, MIDDLE, VERSION, WHOLE};
use packet::{Fields, Kind};
use std::io;

fn main(rt: HostRuntime) -> io::Result<()> {
    check_sums(&rt)?;
    packet_controls(&rt)?;
    one_packet(&rt)?;
    numbers::print_numbers(&rt)?;
    println!(rt)?;
    exchange::print_exchanges(&rt)
}

fn check_sums(rt: &impl Print) -> io::Result<()> {
    println!(rt;
        "check sum of \"123456789\": {:04X}",
        crc::crc_of(b"123456789")
    )?;
    println!(rt; "check sum of no octets: {:04X}", crc::crc_of(b""))
}

// The flags of a first, middle, last and whole segment, on Data; and every other packet of the base.
fn packet_controls(rt: &impl Print) -> io::Result<()> {
    let segments = [FIRST, MIDDLE, LAST, WHOLE];
    print!(rt; "Packet Control of a first, middle, last, whole segment:")?;
    for flags in segments {
        print!(rt; " {:02X}", control(fields(flags, Kind::Data), b"x"))?;
    }
    // An empty segment is written only where it ends its unit (document 02, A8).
    print!(rt; "\nThe same with no payload, written: answers")?;
    for flags in segments {
        let mut out = [0; 12];
        let answer = packet::written_number(packet::write_packet(
            fields(flags, Kind::Data),
            b"",
            b"",
            &mut out,
        ));
        print!(rt; " {answer}")?;
    }
    print!(rt; "\nPacket Control of a Data Ack, Open, Close, Control Ack:")?;
    for kind in [Kind::DataAck, Kind::Open, Kind::Close, Kind::ControlAck] {
        print!(rt; " {:02X}", control(fields(WHOLE, kind), b""))?;
    }
    println!(rt)
}

fn control(fields: Fields, payload: &[u8]) -> u8 {
    let mut out = [0; 13];
    // Into just the octets that it has.
    let end = (LEAST + payload.len()).min(out.len());
    let _ = packet::write_packet(fields, b"", payload, &mut out[..end]);
    out[2]
}

// Data number 7 of channel 258, from the node with address 64 to that with address 65.
fn fields(flags: u8, kind: Kind) -> Fields {
    Fields {
        destination: 65,
        protocol: PROTOCOL,
        version: VERSION,
        secondary: 0,
        flags,
        kind: u8::from(kind),
        channel: 258,
        number: 7,
        reserved: 0,
        source: 64,
    }
}

// A packet is written into a longer buffer, read back, and refused once an octet of it is changed.
fn one_packet(rt: &impl Print) -> io::Result<()> {
    let mut out = [0xAA; 25];
    let answer = packet::written_number(packet::write_packet(
        fields(WHOLE, Kind::Data),
        b"",
        b"fan 3 off",
        &mut out,
    ));
    println!(rt; "\na whole unit \"fan 3 off\", written: answer {answer}")?;
    print!(rt; "the buffer:")?;
    for octet in out {
        print!(rt; " {octet:02X}")?;
    }
    print_reads(rt, out)
}

fn print_reads(rt: &impl Print, mut out: [u8; 25]) -> io::Result<()> {
    print!(rt; "\nits first 21 octets, read: answer ")?;
    print_read(rt, &out[..21])?;
    print!(rt; "its first 22 octets, read: answer ")?;
    print_read(rt, &out[..22])?;
    out[14] = b'4';
    print!(rt; "the first 21 with fan 4 for fan 3, read: answer ")?;
    print_read(rt, &out[..21])
}

fn print_read(rt: &impl Print, octets: &[u8]) -> io::Result<()> {
    let read = packet::read_packet(octets);
    print!(rt; "{}", packet::read_number(read))?;
    if let Ok(found) = read {
        print!(rt;
            ", channel {}, number {}, payload from octet {} on, of length {}",
            found.fields.channel, found.fields.number, found.start, found.length
        )?;
    }
    println!(rt)
}
