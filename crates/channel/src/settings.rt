// Settings are fit or refused with 13 (document 01, A channel's record and memory).
ghost use Rattle.std.specs.Prelude.{◌≡◌};
ghost use Rattle.channel.specs.Settings.{fit_window, fit_units, fit_timers, fit_route, fit_limits, fit_addresses, fit, clash};

use crate::prefixes::{fits_prefix, is_same};
use crate::record::{Addresses, Limits, RECEIVES, Settings};

// The most that settings allow for the window.
const MOST_WINDOW: usize = 128;

#[tactic(auto, unfolding(crate::specs::Settings::fit))]
pub fn is_fit(s: Settings) -> bool
    ensures { result ≡ fit s }
{
    fits_addresses(s.addresses) && fits_limits(s.limits)
}

#[tactic(auto, unfolding(crate::specs::Settings::fit_addresses))]
pub fn fits_addresses(a: Addresses) -> bool
    ensures { result ≡ fit_addresses a }
{
    a.direction <= RECEIVES && fits_prefix(a.prefix) && fits_prefix(a.own)
}

#[tactic(auto, unfolding(crate::specs::Settings::fit_limits))]
pub fn fits_limits(l: Limits) -> bool
    ensures { result ≡ fit_limits l }
{
    fits_window(l) && fits_units(l) && fits_timers(l) && l.flow <= 1 && fits_route(l)
}

// Whoever names a spare has the leading octet.
#[tactic(auto, unfolding(crate::specs::Settings::fit_route))]
fn fits_route(l: Limits) -> bool
    ensures { result ≡ fit_route l }
{
    l.spare <= 16 && l.lead <= 1 && (l.spare == 0 || l.lead == 1)
}

// A power of two up to 128 is what divides 128.
#[tactic(auto, unfolding(crate::specs::Settings::fit_window))]
fn fits_window(l: Limits) -> bool
    ensures { result ≡ fit_window l }
{
    1 <= l.window && MOST_WINDOW % l.window == 0 && l.window <= l.slots && l.slots <= 128
}

#[tactic(auto, unfolding(crate::specs::Settings::fit_units))]
fn fits_units(l: Limits) -> bool
    ensures { result ≡ fit_units l }
{
    (1..=1024).contains(&l.payload) && (1..=l.slots).contains(&l.segments)
}

#[tactic(auto, unfolding(crate::specs::Settings::fit_timers))]
fn fits_timers(l: Limits) -> bool
    ensures { result ≡ fit_timers l }
{
    1 <= l.timeout && 1 <= l.closing && l.retries <= 255
}

// No two records may be so: equal channel number, remote address and remote prefix, whatever their directions.
#[tactic(auto, unfolding(crate::specs::Settings::clash))]
pub fn is_clash(a: Addresses, b: Addresses) -> bool
    ensures { result ≡ clash a b }
{
    a.channel == b.channel && a.remote == b.remote && is_same(a.prefix, b.prefix)
}
