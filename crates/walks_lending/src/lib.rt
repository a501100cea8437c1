// No code: the walks of the calls on a table that is held by value, and of the functions that lend all they are lent on to a call, each proved once
// for any callee and any plain type, that the proofs of other crates instantiate.
#![tactic(auto)]
