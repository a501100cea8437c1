// The reply to a packet that an end has taken, and the channel once it is written.
ghost use Rattle.std.specs.Prelude.{◌≡◌, ◌≤◌, [], true, length};
ghost use Rattle.walks.specs.Serving.{works};
ghost use Rattle.channel.specs.Prefixes.{fit_prefix};
ghost use Rattle.channel.specs.Steps.{outgoing_length};
ghost use Rattle.receiver.specs.Receiving.{carries, carrying};
ghost use Rattle.arrivals.specs.Replying.{ack_out, replied_by, acknowledging, replying};

use channel::flow::replied;
use channel::{Addresses, Answer, Channel, Limits, Node, Stepped, Window};
use receiver::Acked;
use receiver::acks::{carries, stated_by};

// An ack, with what it carries.
fn write_ack(node: Node, a: Addresses, of: Acked, number: u8, l: Limits, w: Window, out: &mut [u8])
    requires { (fit_prefix a.own ≡ true) × (l.window ≤ 128) × (outgoing_length a (carries of l) ≤ length out.old) }
    ensures { out.new ≡ ack_out node a of number (carrying of l w) out.old }
{
    let octet = [stated_by(of, l, w)];
    receiver::acknowledge(node, a, of, number, &octet[..carries(of, l)], out)
}

// The ack goes into the reply where the answer is 0 or 15; with any other answer the reply stays.
pub fn reply(
    s: Answer,
    node: Node,
    a: Addresses,
    of: Acked,
    number: u8,
    l: Limits,
    w: Window,
    out: &mut [u8],
)
    requires { (fit_prefix a.own ≡ true) × (l.window ≤ 128) × (outgoing_length a (carries of l) ≤ length out.old) }
    ensures { out.new ≡ replied_by s node a of number (carrying of l w) out.old }
{
    match s {
        Answer::Done { .. } | Answer::Repeated { .. } => {
            write_ack(node, a, of, number, l, w, out)
        }
        Answer::Inactive(_) | Answer::Refused(_) => {}
    }
}

// With 0 and 15 the channel has sent an Ack with this number. It is compiled into its callers, as `replying` is: as functions of their own
// they took 4 KB of stack more.
#[inline(always)]
pub fn acknowledged(number: u8, s: Stepped) -> Stepped
    ensures { result ≡ acknowledging number s }
{
    match s.answer {
        Answer::Done { .. } | Answer::Repeated { .. } => {
            let c = s.channel;
            let pulse = replied(c.phase.state, c.limits, number, c.pulse);
            Stepped {
                channel: Channel { pulse, ..c },
                ..s
            }
        }
        Answer::Inactive(_) | Answer::Refused(_) => s,
    }
}

// A step of the channel c that an Ack answers: the reply is written, and the channel is as it is then.
#[inline(always)]
pub fn replying(
    c: &Channel,
    s: Stepped,
    node: Node,
    of: Acked,
    number: u8,
    out: &mut [u8],
) -> Stepped
    requires { (fit_prefix c.now.addresses.own ≡ true) × (c.now.limits.window ≤ 128) × (outgoing_length c.now.addresses (carries of c.now.limits) ≤ length out.old) }
    ensures { works result [] [] out.new ≡ replying node c.now of number s [] [] out.old }
{
    reply(
        s.answer,
        node,
        c.addresses,
        of,
        number,
        c.limits,
        s.channel.window,
        out,
    );
    acknowledged(number, s)
}
