// Whether lent words are a sound machine's: the numbers, the slots with their rows, and the whole.
#![tactic(auto)]

pub mod numbers;
pub mod rows;
pub mod running;
pub mod saved;
pub mod whole;
