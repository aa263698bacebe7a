// The kinds of the domain: a net's shape and the limits, ages and columns, events, answers. The nets themselves, the rules and the
// theorems are in specs/ and proofs/.
#![tactic(auto)]

pub mod age;
pub mod answer;
pub mod event;
pub mod net;
