// What the program menupage decides: what its arguments ask for, which net is in its input, the page, and every byte of the lines about it.
#![tactic(auto)]

pub mod arguments;
pub mod build;
pub mod sheet;
