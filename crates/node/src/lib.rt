// The node: one door for every call that serves one channel, over a lent table of at most 16 records, one lent memory, one lent slice of lengths and the lines. It
// surveys the table, copies the record that the request is for out, steps it by value, stores it back, and moves its channel in the lines. Settings
// and ticks go over the whole table.
#![tactic(auto)]

pub mod door;
pub mod request;

pub use door::serve;
pub use request::Request;
pub use settings::settings;
pub use table::Told;
pub use ticks::ticking::tick;
