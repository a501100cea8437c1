// Data at a receive end: where its number lies in the window, how it is filed, how the start moves, and complete units taken (document 01,
// Receiving). The lent memory is written where a segment is filed, and nowhere else.
#![tactic(auto)]

pub mod data;
pub mod moving;
pub mod sorting;
pub mod taking;

pub use data::data_step;
pub use taking::take_step;
