// The answer of a call of the node.
ghost use Rattle.std.specs.Prelude.{◌≡◌};
ghost use Rattle.channel.specs.Answers.{reason_of};
ghost use Rattle.host.specs.Said.{octets_told, said_of};

use channel::Answer;
use table::Told;

// What a call answers: document 01's number; with 0 and 15 the octets written, with 11 the octets that are wanted; with 0 the units confirmed, with 9 the
// reason; else zeros. And the index of the channel that was served; as many as the table has records where none was.
#[repr(C)]
#[derive(Clone, Copy)]
pub struct Said {
    pub number: u32,
    pub reason: u32,
    pub length: usize,
    pub confirmed: usize,
    pub index: usize,
}

fn reason(a: Answer) -> u32
    ensures { result ≡ reason_of a }
{
    match a {
        Answer::Inactive(why) => u32::from(why),
        _ => 0,
    }
}

// What a refusal wants, or what was written: no answer has both.
fn octets(a: Answer) -> usize
    ensures { result ≡ octets_told a }
{
    match a {
        Answer::Refused(_) => a.wanted(),
        _ => a.length(),
    }
}

pub fn said_of(t: Told) -> Said
    ensures { result ≡ said_of t }
{
    Said {
        number: u32::from(t.answer),
        reason: reason(t.answer),
        length: octets(t.answer),
        confirmed: t.answer.confirmed(),
        index: t.index,
    }
}
