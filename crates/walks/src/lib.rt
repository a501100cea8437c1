// No code: what the walks over a lent slice of structs share, and the walks of the calls that serve one record of a lent table, each proved once
// for any callee and any plain type, that the proofs of other crates instantiate.
#![tactic(auto)]
