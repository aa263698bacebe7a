// What the program menurun decides: where the net ends in its input, what is told and left when the log behind it is run, and every
// byte of the lines that say so. `sheet::print` alone writes.
#![tactic(auto)]

pub mod input;
pub mod lines;
pub mod sheet;
