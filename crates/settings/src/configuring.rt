// Settings for a whole table at once (document 01, A channel's record and memory): no old record is read, and every channel is made CLOSED and empty.
ghost use Rattle.std.specs.Prelude.{◌≡◌, map, length};
ghost use Rattle.walks.specs.Serving.{changes, telling};
ghost use Rattle.channel.specs.Record.{made_of};
ghost use Rattle.table.specs.Serving.{told_of};
ghost use Rattle.settings.specs.Configuring.{configured};

use crate::settling::is_settled;
use channel::record::made;
use channel::{Answer, Channel, Refusal, Settings};
use lines::clear;
use table::Told;

// Each record is made of the settings with its index. The form Afresh of docs/WALKS.md, to the letter.
fn fill(t: &mut [Channel], s: &[Settings]) -> usize
    requires { length t.old ≡ length s.now }
    ensures { (result ≡ length s.now) × (t.new ≡ map made_of s.now) }
{
    let mut j = 0;
    while j < t.len() {
        let c = made(s[j]);
        t[j] = c;
        j = j + 1;
    }
    t.len()
}

// Answers 0 or 13, and serves no single channel. With 13 no record and no line has changed. The memory and the lengths are only measured.
#[tactic(auto, unfolding(crate::specs::Configuring::configured))]
pub fn settings(
    t: &mut [Channel],
    mem: &[u8],
    lens: &[u16],
    lines: &mut [u8],
    s: &[Settings],
) -> Told
    ensures { changes result t.new lines.new ≡ telling (told_of (length t.old)) (configured t.old mem.now lens.now lines.old s.now) }
{
    let index = t.len();
    if !is_settled(t, mem, lens, lines, s) {
        return Told {
            answer: Answer::Refused(Refusal::Settings),
            index,
        };
    }
    let _ = fill(t, s);
    clear(lines);
    Told {
        answer: Answer::Done {
            length: 0,
            confirmed: 0,
        },
        index,
    }
}
