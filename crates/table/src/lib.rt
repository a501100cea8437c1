// The lent table of records: the survey that every call begins with, which tests each record with its own lengths and finds the one that suits
// best, and what it decides (document 01, A channel's record and memory, Answer numbers 13 and 14); and who waits to hand out a packet, and what a
// call does to the lines (document 02, A4, in place of 01's order of channels).
#![tactic(auto)]

pub mod beginning;
pub mod deciding;
pub mod looking;
pub mod own;
pub mod surveying;
pub mod waiting;

pub use deciding::{Decision, Placed, Told, Verdict};
pub use looking::{Look, Sought};
pub use surveying::Survey;
