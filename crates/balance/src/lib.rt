// Whether a net balances under weights of its places, and what a state weighs (request W6).
#![tactic(auto)]

pub mod call;
pub mod weigh;
