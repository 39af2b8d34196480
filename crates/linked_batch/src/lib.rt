// Calls in words, one after the other, on a machine that is tested once: switches that nothing refuses are done on the words.
#![tactic(auto)]

pub mod list;
pub mod one;
