// Lines of text, built in a lent buffer.
#![tactic(auto)]

pub mod line;
