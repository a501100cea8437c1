// The replay's engine: octets of a trace in, a record out, in whatever pieces they come; a record in, an answer out (document 01, Replay program).
// Its two channels are held by value, so that a program over it has no reference to a record; what happens to them is what the node's own calls do.
#![tactic(auto)]

pub mod held;
pub mod reading;
pub mod records;
pub mod request;
pub mod tables;

pub use held::Kept;
pub use records::step;
pub use tables::table_of;
