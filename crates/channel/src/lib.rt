// A channel's record with its nested parts, the settings it is made from and their test, and the answers of its calls (document 01, A channel's
// record and memory). The standing condition is a definition here; it is tested in `condition`.
#![tactic(auto)]

pub mod answer;
pub mod flow;
pub mod lone;
pub mod places;
pub mod prefixes;
pub mod pulse;
pub mod record;
pub mod settings;
pub mod step;

pub use answer::{Answer, Refusal};
pub use record::{
    Addresses, Channel, Flow, Limits, Lone, Node, Phase, Prefix, Pulse, Settings, Timers, Window,
};
pub use step::{Stepped, Ticked};
