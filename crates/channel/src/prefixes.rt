// Source Address prefixes (document 02, A7): their test, and whether two are equal.
ghost use Rattle.std.specs.Prelude.{◌≡◌};
ghost use Rattle.channel.specs.Prefixes.{fit_prefix, same_prefix};

use crate::record::Prefix;
use packet::fields::MOST_PREFIX;

// 15 octets at most, and 0 past them.
#[tactic(auto, unfolding(crate::specs::Prefixes::fit_prefix))]
pub fn fits_prefix(p: Prefix) -> bool
    ensures { result ≡ fit_prefix p }
{
    let n = usize::from(p.length);
    n <= MOST_PREFIX && p.octets[n..].iter().all(|octet| *octet == 0)
}

#[tactic(auto, unfolding(crate::specs::Prefixes::same_prefix))]
pub fn is_same(p: Prefix, q: Prefix) -> bool
    ensures { result ≡ same_prefix p q }
{
    p == q
}
