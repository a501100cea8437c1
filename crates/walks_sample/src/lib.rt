// A function of each of the fifteen forms that the walks cover, over a table of two fields a record. Each is proved by an instance of its theorem
// and in no other way (docs/WALKS.md), so that what the walks say of a function's code is checked against the code that is made today. Nothing
// stands on this crate.
//
// The theorem holds the form of a function that is proved so, to the local that is only passed on and the loop that counts: `survey`, `serve`,
// `tick_all`, `tick`, `fill`, `configure`, the calls of `holding` and `lending`, and those at an index in `asking`. The others are as elsewhere.
#![tactic(auto)]

pub mod asking;
pub mod configuring;
pub mod holding;
pub mod lending;
pub mod plain;
pub mod serving;
pub mod surveying;
pub mod ticking;
