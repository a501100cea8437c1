// Whether settings are such of a table, each fit and beside the others too, and a table, memory, lengths and lines are what they ask for.
ghost use Rattle.std.specs.Prelude.{◌≡◌, true, length, take};
ghost use Rattle.std.specs.List.{list_any};
ghost use Rattle.channel.specs.Settings.{clash};
ghost use Rattle.channel.specs.Tables.{each_fit, fit_table};
ghost use Rattle.table.specs.Lent.{all_slots, all_octets};
ghost use Rattle.table.specs.Surveying.{looked_at};
ghost use Rattle.settings.specs.Configuring.{made_table, settled};
ghost use Rattle.settings.specs.Seeing as seeing;

use crate::pairing::pairs_fit;
use channel::settings::{is_clash, is_fit};
use channel::{Addresses, Channel, Settings};
use table::surveying::{LINES, MOST_RECORDS, area, looked_at};

// One of those behind it has such addresses.
fn is_taken(a: Addresses, behind: &[Settings]) -> bool
    ensures { result ≡ list_any (λ s. clash a s.addresses) behind.now }
{
    behind.iter().any(|x| is_clash(a, x.addresses))
}

// Each is fit, and no two clash.
fn each_fits(s: &[Settings]) -> bool
    ensures { result ≡ each_fit s.now }
{
    s.iter()
        .enumerate()
        .all(|(i, x)| is_fit(*x) && !is_taken(x.addresses, &s[i + 1..]))
}

#[tactic(auto, unfolding(channel::specs::Tables::fit_table))]
fn fits_table(s: &[Settings]) -> bool
    ensures { result ≡ fit_table s.now }
{
    (1..=MOST_RECORDS).contains(&s.len()) && each_fits(s) && pairs_fit(s)
}

// The first of them show as much as all: one more than there may be shows that there are too many.
#[tactic(auto, using(crate::proofs::Fitting::first_fit))]
fn first_fit(s: &[Settings]) -> bool
    ensures { result ≡ fit_table s.now }
{
    fits_table(&s[..looked_at(s.len())])
}

// The slots and the octets that they ask for together: of 16 that are fit no sum leaves a machine word.
fn sizes(s: &[Settings]) -> (usize, usize)
    requires { fit_table s.now ≡ true }
    ensures slots { result.0 ≡ all_slots (made_table s.now) }
    ensures octets { result.1 ≡ all_octets (made_table s.now) }
{
    let mut slots = 0;
    let mut octets = 0;
    for x in s {
        slots += x.limits.slots;
        octets += area(x.limits);
    }
    (slots, octets)
}

// The settings are such of a table, and what is lent is what they ask for.
#[tactic(auto, unfolding(crate::specs::Configuring::settled))]
fn fits_lent(t: &[Channel], mem: &[u8], lens: &[u16], lines: &[u8], s: &[Settings]) -> bool
    ensures { result ≡ settled t.now mem.now lens.now lines.now s.now }
{
    // Before any of the settings is looked at: lines or a table of another size are refused at once.
    if lines.len() != LINES || t.len() != s.len() || !first_fit(s) {
        return false;
    }
    let (slots, octets) = sizes(s);
    lens.len() == slots && mem.len() == octets
}

// It is told of them where they lie, and is what is seen of the first of them, one after another: so the fold of specs/Seeing.antt, and the theorems over
// it, hold this code.
#[tactic(auto, using(crate::proofs::SeenSettled::looked_settled))]
pub fn is_settled(t: &[Channel], mem: &[u8], lens: &[u16], lines: &[u8], s: &[Settings]) -> bool
    ensures settled { result ≡ settled t.now mem.now lens.now lines.now s.now }
    ensures seen { result ≡ seeing.is_settled (seeing.seen (take (looked_at (length s.now)) s.now) lens.now (seeing.begun lines.now)) (length t.now) (length s.now) (length mem.now) (length lens.now) }
{
    fits_lent(t, mem, lens, lines, s)
}
