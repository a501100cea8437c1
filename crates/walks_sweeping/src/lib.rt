// No code: the walks over every record of a lent table, each proved once for any callee and any plain type, that the proofs of other crates instantiate.
#![tactic(auto)]
