// The call `settings`, for a whole table at once (document 01, A channel's record and memory): where the settings are fit, beside one another too, and
// table, memory, lengths and lines are what they ask for, every channel is made CLOSED and empty. No old record is read.
#![tactic(auto)]

pub mod configuring;
pub mod pairing;
pub mod settling;

pub use configuring::settings;
