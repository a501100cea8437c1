// Which record of the table a call is for: the one with an index, the one that a packet is for, or the one whose packet goes next.
ghost use Rattle.std.specs.Prelude.{◌≡◌, ◌<◌, if◌then◌else◌};
ghost use Rattle.table.specs.Looking.{flow_finds, looks_for, same, seeking, graded};
ghost use Rattle.table.specs.Waiting.{grade_at};

use crate::waiting::waiting;
use channel::record::{RECEIVES, SENDS};
use channel::{Addresses, Channel, Prefix, Refusal, prefixes};
use packet::{Fields, Kind};

#[derive(Clone, Copy)]
pub enum Sought {
    // A request names its channel.
    Index(usize),
    // So does a question, which moves nobody in the lines.
    Question(usize),
    // A packet that was read, with where its payload begins and how many octets it has.
    Packet {
        fields: Fields,
        start: usize,
        length: usize,
    },
    // The packet that goes next, by the lines.
    Ready,
    // The call is refused whatever the table holds.
    Nobody(Refusal),
}

// What is looked for, and of a packet the prefix: an array, which stands beside the enum.
#[derive(Clone, Copy)]
pub struct Look {
    pub sought: Sought,
    pub prefix: Prefix,
}

// Where no prefix counts.
pub fn seek(sought: Sought) -> Look
    ensures { result ≡ seeking sought }
{
    Look {
        sought,
        prefix: Prefix::NONE,
    }
}

// The grade of a record that does not suit. The definition `graded` holds the number, so it is no `Option`.
pub const UNFIT: usize = 48;

// Of type 6: with an octet it is Flow Control and looks for a sender, without it is the Ack of it.
fn flow_finds(length: usize) -> u8
    ensures { result ≡ flow_finds length }
{
    if length == 0 { RECEIVES } else { SENDS }
}

// Data Acks and Control Acks look for a record that sends, Data and Control for one that receives. No field of a Heartbeat or its Ack tells its end.
fn looks_for(kind: Kind, length: usize, direction: u8) -> bool
    ensures { result ≡ looks_for kind length direction }
{
    match kind {
        Kind::Data | Kind::Open | Kind::Close | Kind::Lacking(_) => direction == RECEIVES,
        Kind::DataAck | Kind::ControlAck => direction == SENDS,
        Kind::FlowControl => direction == flow_finds(length),
        Kind::Heartbeat | Kind::HeartbeatAck => true,
    }
}

// The packet, with so many octets and its prefix, is for the channel with these addresses.
#[tactic(auto, unfolding(crate::specs::Looking::same))]
fn is_same(a: Addresses, f: Fields, length: usize, prefix: Prefix) -> bool
    ensures { result ≡ same a f length prefix }
{
    a.channel == f.channel
        && a.remote == f.source
        && prefixes::is_same(a.prefix, prefix)
        && looks_for(Kind::from(f.kind), length, a.direction)
}

// A record suits in full or not at all.
fn grade_whole(suits: bool) -> usize
    ensures { result ≡ (if suits then 0 else 48) }
{
    if suits { 0 } else { UNFIT }
}

// Whose turn it is by the lines.
fn grade_ready(lines: [u8; 51], j: usize, c: Channel) -> usize
    requires { j < 16 }
    ensures { result ≡ grade_at j c lines }
{
    lines::grade(&lines, j, waiting(c))
}

// How well the record at index j suits: 0 best, UNFIT not at all.
pub fn grade(look: Look, lines: [u8; 51], j: usize, c: Channel) -> usize
    requires { j < 16 }
    ensures { result ≡ graded look lines j c }
{
    match look.sought {
        Sought::Index(i) | Sought::Question(i) => grade_whole(i == j),
        Sought::Packet { fields, length, .. } => {
            grade_whole(is_same(c.addresses, fields, length, look.prefix))
        }
        Sought::Ready => grade_ready(lines, j, c),
        Sought::Nobody(_) => UNFIT,
    }
}
