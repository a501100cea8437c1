// No code: a run of two nodes that satisfies every premise of demand 3.
#![tactic(auto)]
