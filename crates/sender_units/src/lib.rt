// Units at a transmit end: filed by a transfer, and reclaimed in CLOSED (document 01, Sending). The lent memory is written by a transfer, and by
// nothing else.
#![tactic(auto)]

pub mod reclaiming;
pub mod transfer;

pub use reclaiming::reclaim_step;
pub use transfer::{transfer_step, would_file, would_transfer};
