// Transfer of a unit: ask, then file.
ghost use Rattle.std.specs.Prelude.{◌≡◌, false, min, length, MatchResult};
ghost use Rattle.slots.specs.Units.{segments_of};
ghost use Rattle.channel.specs.declared.answer.Answer.TheVariants.{Done, Refused};
ghost use Rattle.channel.specs.Asked.{Ringed, Asked};
ghost use Rattle.channel.specs.Pairs.{filed, filed_count};
ghost use Rattle.sender_units.specs.Transfer.{would_transfer, is_accepted, transfer_step, transfer_mem, transfer_lens};

use channel::record::OPEN;
use channel::step::{done, refused};
use channel::{Answer, Channel, Limits, Refusal, Stepped};
use slots::ring;

// How many segments n octets need, if a transfer that files them is accepted.
#[tactic(auto, unfolding(crate::specs::Transfer::would_transfer, crate::specs::Transfer::is_accepted))]
fn needed(c: &Channel, n: usize) -> Result<usize, Refusal>
    requires { Ringed c.now.limits c.now.window }
    ensures { MatchResult result (λ count. (would_transfer c.now n ≡ Done 0 0) × (count ≡ segments_of c.now.limits.payload n)) (λ why. (would_transfer c.now n ≡ Refused why) × (is_accepted c.now n ≡ false)) }
{
    if c.phase.state != OPEN {
        return Err(Refusal::State);
    }
    let count = slots::segments(c.limits.payload, n);
    if c.limits.segments < count {
        return Err(Refusal::Long);
    }
    if c.limits.slots < c.window.behind + c.window.ahead + count {
        return Err(Refusal::NoRoom);
    }
    Ok(count)
}

// What a transfer would answer where n octets are to be filed.
pub fn would_transfer(c: Channel, n: usize) -> Answer
    requires { Ringed c.limits c.window }
    ensures { result ≡ would_transfer c n }
{
    match needed(&c, n) {
        Ok(_) => Answer::Done {
            length: 0,
            confirmed: 0,
        },
        Err(why) => Answer::Refused(why),
    }
}

// How many octets are filed of a unit of n octets: on a pair one more. The largest number stands for one more than it.
fn filed_size(limits: Limits, n: usize) -> usize
    ensures { result ≡ min (filed_count limits n) 18446744073709551615 }
{
    if limits.lead == 0 {
        n
    } else {
        n.saturating_add(1)
    }
}

// What a transfer of a unit of n octets would answer.
pub fn would_file(c: Channel, n: usize) -> Answer
    requires { Ringed c.limits c.window }
    ensures { result ≡ would_transfer c (filed_count c.limits n) }
{
    would_transfer(c, filed_size(c.limits, n))
}

// The unit's segments are filed behind those that are held, and none of them is acknowledged: what the slots' last segments left
// in the marks of acks goes.
pub fn transfer_step(c: Channel, unit: &[u8], mem: &mut [u8], lens: &mut [u16]) -> Stepped
    requires { Asked c mem.old lens.old }
    ensures { (result ≡ transfer_step c (length (filed c.limits unit.now))) × (mem.new ≡ transfer_mem c (filed c.limits unit.now) mem.old) × (lens.new ≡ transfer_lens c (filed c.limits unit.now) lens.old) }
{
    let count = match needed(&c, filed_size(c.limits, unit.len())) {
        Ok(count) => count,
        Err(why) => return refused(c, why),
    };
    let from = ring::round(c.window.place + c.window.ahead, c.limits.slots);
    let mut d = c;
    d.window.ahead = c.window.ahead + count;
    d.marks = store::file_unit(c.limits, mem, lens, c.marks, from, unit, count);
    d.acked = ring::clear(c.acked, c.limits.slots, count, from);
    done(d, 0)
}
