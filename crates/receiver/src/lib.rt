// A receive end: its directives, the Control packets that arrive, its acks, what leaving OPEN keeps, and ticks (document 01, Receiving). Each step
// takes the channel by value and gives it back with an answer. Data is in `receiver_data`.
#![tactic(auto)]

pub mod acks;
pub mod control;
pub mod leaving;
pub mod ticking;

pub use acks::{Acked, acknowledge};
pub use control::{close_step, control_step, open_step};
pub use ticking::tick_step;
