// Acks at a transmit end: of its Control packets; and of Data, where the start moves on and units are confirmed (document 01, Sending); and
// the number that an Ack states (document 02, A5).
#![tactic(auto)]

pub mod acks;
pub mod stated;

pub use stated::{control_ack_stated, data_ack_stated};
