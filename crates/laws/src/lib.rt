// No code: the definitions and laws that know nothing of SpaceWire, and that the other crates' specs and proofs share.
#![tactic(auto)]
