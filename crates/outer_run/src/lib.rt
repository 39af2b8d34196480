// Calls in words on sound words: one, and a list of them.
#![tactic(auto)]

pub mod list;
pub mod one;
