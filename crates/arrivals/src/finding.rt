// A packet arrives: it is read, and found to be for this node or not.
ghost use Rattle.std.specs.Prelude.{◌≡◌, ◌≤◌, length, take, drop};
ghost use Rattle.packet.specs.Layout.{most_prefix, prefix_from, payload_at};
ghost use Rattle.packet.specs.Reading.{read_of};
ghost use Rattle.channel.specs.Prefixes.{prefix_with};
ghost use Rattle.arrivals.specs.Finding.{is_ours, look_for, look_by, look_of};

use channel::{Node, Prefix, Refusal};
use packet::fields::{FRONT, LEAST};
use packet::{Fields, Found, ReadError, read_packet};
use table::looking::seek;
use table::{Look, Sought};

// The destination and the protocol ID are this node's.
#[tactic(auto, unfolding(crate::specs::Finding::is_ours))]
fn is_ours(node: Node, f: Fields) -> bool
    ensures { result ≡ is_ours node f }
{
    f.destination == node.address && f.protocol == node.protocol
}

// The prefix of n octets, with 0 past them, as a record has it.
fn prefix_of(packet: &[u8], n: usize) -> Prefix
    requires { (n ≤ most_prefix) × (payload_at n ≤ length packet.now) }
    ensures { result ≡ prefix_with n (take n (drop prefix_from packet.now)) }
{
    let mut octets = [0; 15];
    octets[..n].copy_from_slice(&packet[FRONT..FRONT + n]);
    Prefix {
        length: n as u8,
        octets,
    }
}

fn look_by(node: Node, packet: &[u8], read: Result<Found, ReadError>) -> Look
    requires { read ≡ read_of packet.now }
    ensures { result ≡ look_by node packet.now read }
{
    match read {
        Ok(found) => {
            let prefix = prefix_of(packet, found.prefix);
            look_for(node, found.fields, prefix, found.start, found.length)
        }
        Err(why) => seek(Sought::Nobody(Refusal::from(why))),
    }
}

fn look_for(node: Node, fields: Fields, prefix: Prefix, start: usize, length: usize) -> Look
    ensures { result ≡ look_for node fields prefix start length }
{
    if is_ours(node, fields) {
        return Look {
            sought: Sought::Packet {
                fields,
                start,
                length,
            },
            prefix,
        };
    }
    seek(Sought::Nobody(Refusal::Strange))
}

// Which channel a packet is for, with a reply buffer of so many octets: tests 11, 1, 2, 4, 3 in this order.
pub fn look_of(node: Node, packet: &[u8], room: usize) -> Look
    ensures { result ≡ look_of node packet.now room }
{
    if room < LEAST {
        return seek(Sought::Nobody(Refusal::Small(LEAST)));
    }
    look_by(node, packet, read_packet(packet))
}
