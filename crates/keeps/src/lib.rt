// No code: what every call of the node keeps. One outcome, the test for 13, all of it where a call refuses, and every channel but its own.
#![tactic(auto)]
