// The packets of a transmit end: of which ranks one is ready, and the hand-out of that of a rank (document 01, Sending); and the Heartbeat, which both ends
// hand out (document 02, A2).
#![tactic(auto)]

pub mod handing;

pub use handing::{hand_step, is_open_ready, ranks_of};
