// The lent words that stand for a world, the words of a world, and the set-up's numbers by value.
#![tactic(auto)]

pub mod machine;
pub mod outcome;
pub mod sizes;
