// What a state owes: the transitions that must start or end, the degree of one, and the tests that a tick and a start ask.
#![tactic(auto)]

pub mod bits;
pub mod counts;
pub mod degree;
pub mod marks;
pub mod report;
pub mod sets;
pub mod starts;
pub mod weights;
