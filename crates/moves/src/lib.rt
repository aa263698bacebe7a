// One event on bytes that are in their frame, done and taken back.
#![tactic(auto)]

pub mod event;
pub mod firing;
pub mod marking;
pub mod order;
pub mod shift;
pub mod tick;
