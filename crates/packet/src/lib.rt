// One packet alone: its fields, how it is written into a lent buffer, and how it is read where it lies (document 01, The packet). Addresses,
// protocol ID and channel are plain fields here; whose they are is the node's business.
#![tactic(auto)]

pub mod fields;
pub mod kinds;
pub mod reading;
pub mod writing;

pub use fields::Fields;
pub use kinds::Kind;
pub use reading::{Found, ReadError, read_number, read_packet};
pub use writing::{WriteError, write_packet, written_number};
