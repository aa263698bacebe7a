// What a program is asked by the words behind its name; the file of names; and words put into a lent buffer, with numbers and names in them.
#![tactic(auto)]

pub mod arguments;
pub mod names;
pub mod wording;
