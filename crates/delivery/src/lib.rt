// No code: demand 3 of the node's calls. Two nodes, any calls at both, and a link that loses, repeats, delays, reorders and damages.
#![tactic(auto)]
