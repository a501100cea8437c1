// The two channels of a replay: the first transmits, the second receives.
ghost use Rattle.std.specs.Prelude.{◌≡◌, map};
ghost use Rattle.engine.specs.Records.{settings_for, settings_of};
ghost use Rattle.channel.specs.Record.{made_of};

use channel::record::{RECEIVES, SENDS, made};
use channel::{Addresses, Channel, Limits, Prefix, Settings};

// Of each channel: k 4, slots 8, P 16, M 4, timeouts 4, retries 2; no Heartbeat of its own.
pub const LIMITS: Limits = Limits {
    window: 4,
    slots: 8,
    payload: 16,
    segments: 4,
    timeout: 4,
    closing: 4,
    retries: 2,
    interval: 0,
    flow: 0,
    spare: 0,
    lead: 0,
};

// One channel's, with no prefixes.
fn settings_for(channel: u16, remote: u8, direction: u8) -> Settings
    ensures { result ≡ settings_for channel remote direction }
{
    Settings {
        addresses: Addresses {
            channel,
            remote,
            direction,
            prefix: Prefix::NONE,
            own: Prefix::NONE,
        },
        limits: LIMITS,
    }
}

// As settings make them, with the other end's address and the two channel numbers.
pub fn table_of(remote: u8, first: u16, second: u16) -> [Channel; 2]
    ensures { result ≡ map made_of (settings_of remote first second) }
{
    [
        made(settings_for(first, remote, SENDS)),
        made(settings_for(second, remote, RECEIVES)),
    ]
}
