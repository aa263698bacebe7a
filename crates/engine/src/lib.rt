// The calls of document 01. Each takes any bytes whatever, examines all that it is given, and ends.
#![tactic(auto)]

pub mod answers;
pub mod calls;
pub mod examine;
