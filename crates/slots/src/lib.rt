// The ring of slots, segments in the slots of a lent memory, and how a unit is cut into them (document 01, A channel's record and memory, Sending).
//
// Memory and lengths, and how many slots they are of, come apart to each function: so they are lent, and crate `store` says why no struct holds them.
#![tactic(auto)]

pub mod cutting;
pub mod filing;
mod packed;
pub mod ring;

pub use cutting::{flags_of, segments};
pub use filing::{file_led, file_segment, read_segment};
