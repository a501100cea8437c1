// The spare route (document 02, A13): the units that a closed sender holds go to its spare, oldest first, as far as the spare accepts them.
// Memory and lengths come apart, as in crate `store`, which says why.
#![tactic(auto)]

pub mod fetching;
pub mod refiling;
