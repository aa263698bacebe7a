// The stored forms of nets, states and logs: words, places, the checks (numbers 1 to 10), the initial state.
#![tactic(auto)]

pub mod begins;
pub mod checked;
pub mod fault;
pub mod initial;
pub mod log;
pub mod net;
pub mod places;
pub mod state;
pub mod words;
