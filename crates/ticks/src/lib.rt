// The call `tick`: every channel of a lent table is ticked, each alone (document 01, Answer numbers: 'A tick treats each channel alone'),
// and then joins and leaves the lines by what is ready (document 02, A4).
#![tactic(auto)]

pub mod ticking;
