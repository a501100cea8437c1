// What each request does to the one channel that it names, and the hand-out of the packet that goes next: the channel's own part of the lent memory
// and lengths cut out, and the step of its end taken there (document 01, Answer numbers: 'Requests test 14, then direction and state (5)').
// What is lent comes apart here, as the C interface lends it: a struct that holds memory and lengths was tried in `slots` and is no plainer.
#![tactic(auto)]

pub mod handing;
pub mod steps;
