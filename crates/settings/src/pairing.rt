// The pairs of a table (document 02, A13): each spare is another sending record, and a unit has a leading octet on a pair and nowhere else.
ghost use Rattle.std.specs.Prelude.{◌≡◌, ◌+◌, ◌<◌, ◌==◌, length};
ghost use Rattle.std.specs.List.{list_any};
ghost use Rattle.channel.specs.Pairs.{spare_fits, lead_for, pair_fits, pairs_fit, spares_of, leads_of, ways_of};

use channel::Settings;
use channel::record::SENDS;

// The spare of the i-th is none (0), or another sending record (its index and 1 more), and the i-th sends.
#[tactic(auto, using(crate::proofs::Named::spare_of, crate::proofs::Named::way_of), unfolding(channel::specs::Pairs::spare_fits))]
fn spare_fits(s: &[Settings], i: usize) -> bool
    requires { i < length s.now }
    ensures { result ≡ spare_fits (spares_of s.now) (ways_of s.now) (length s.now) i }
{
    let spare = s[i].limits.spare as usize;
    spare == 0
        || spare <= s.len()
            && spare != i + 1
            && s[i].addresses.direction == SENDS
            && s[spare - 1].addresses.direction == SENDS
}

// Some record names the i-th.
fn is_named(s: &[Settings], i: usize) -> bool
    requires { i < length s.now }
    ensures { result ≡ list_any (λ x. x.limits.spare == i + 1) s.now }
{
    s.iter().any(|x| x.limits.spare as usize == i + 1)
}

// On a pair: it names a spare, or is named as one.
#[tactic(auto, using(crate::proofs::Named::spare_of, crate::proofs::Named::named_any))]
fn lead_for(s: &[Settings], i: usize) -> u16
    requires { i < length s.now }
    ensures { result ≡ lead_for (spares_of s.now) (length s.now) i }
{
    u16::from(s[i].limits.spare != 0 || is_named(s, i))
}

#[tactic(auto, using(crate::proofs::Named::lead_of), unfolding(channel::specs::Pairs::pair_fits))]
fn pair_fits(s: &[Settings], i: usize) -> bool
    requires { i < length s.now }
    ensures { result ≡ pair_fits (spares_of s.now) (leads_of s.now) (ways_of s.now) (length s.now) i }
{
    spare_fits(s, i) && s[i].limits.lead == lead_for(s, i)
}

// All of them.
pub fn pairs_fit(s: &[Settings]) -> bool
    ensures { result ≡ pairs_fit s.now }
{
    (0..s.len()).all(|i| pair_fits(s, i))
}
