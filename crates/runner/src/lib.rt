// The page runner: it chooses event after event by the rule, does each, and writes it to a log.
#![tactic(auto)]

pub mod build;
pub mod call;
pub mod choose;
pub mod clear;
pub mod log;
pub mod stop;
