// No code: one channel as a protocol, two ends and a link with unbounded segment numbers, and demand 3 shown there.
#![tactic(auto)]
