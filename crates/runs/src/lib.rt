// Whole logs on bytes that are in their frame: the events run, and the last ones walked back.
#![tactic(auto)]

pub mod run;
pub mod told;
pub mod walk;
