// The test of a channel's standing condition (document 01, A channel's record and memory). The condition is a definition of `channel`.
#![tactic(auto)]

pub mod standing;

pub use standing::stands;
