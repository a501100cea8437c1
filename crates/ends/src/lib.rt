// No code: what every step of either end keeps. The standing condition, what is fixed, and all of it where a step refuses.
#![tactic(auto)]
