// Units on the ring of slots: where they end, their octets, and a unit filed (document 01, A channel's record and memory, Sending, Receiving).
//
// The settings, the memory and the lengths come apart to each function: the C interface lends memory and lengths apart. A struct that holds both as
// `&mut` was tried: for the one clause that it spares, `Sized`, each contract would need two more, that the same memory is lent on and that the
// sizes stay. Walks go round the ring place by place, as `ring::round` says.
#![tactic(auto)]

pub mod filing;
pub mod gathering;
pub mod units;

pub use filing::file_unit;
pub use gathering::{gather, size_in};
pub use units::{ends_in, last_end_in, unit_of};
