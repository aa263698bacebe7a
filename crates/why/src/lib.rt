// What the program menuwhy decides: which portions of a log are fed to the engine, and which phrases are told of them, in which order. What a
// phrase says in words is the program's.
#![tactic(auto)]

mod bytes;
pub mod cursor;
mod events;
mod expected;
pub mod found;
mod last;
mod owing;
pub mod phrase;
mod portion;
mod state;
mod steps;
pub mod telling;
mod verdict;
