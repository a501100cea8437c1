// The lines of channels that wait to be served, one for each rank (document 02, A4), as octets that the caller lends. A channel is its index here.
#![tactic(auto)]

pub mod fit;
mod line;
pub mod ranks;

pub use fit::is_fit;
pub use ranks::{Ranks, clear, grade, read, relist, relisted, serve, write};
