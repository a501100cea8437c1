// What an arriving packet does: read, found to be for a channel of this node, its step taken on that channel's own part of the lent memory and
// lengths, and the reply written (document 01, Answer numbers: 'Arrivals test 11, 1, 2, 4, 3, 14, ..').
#![tactic(auto)]

pub mod arriving;
pub mod data;
pub mod finding;
pub mod replying;
