// No code: what a record with its octets and lengths means as an end of the protocol: the units that it holds, and that each of its steps is a step
// of the protocol.
#![tactic(auto)]
