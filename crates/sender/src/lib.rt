// A transmit end: its directives, what leaving OPEN keeps, and its ticks (document 01, Sending). Each step takes the channel by value and gives it
// back with an answer. Units are in `sender_units`, packets in `sender_packets`, acks in `sender_acks`.
#![tactic(auto)]

pub mod directives;
pub mod ticking;

pub use directives::{close_step, open_step};
pub use ticking::tick_step;
