// 01: "Added calls", behind their gates.
#![tactic(auto)]

pub mod call;
pub mod entry;
pub mod fuel;
pub mod iterator;
pub mod look;
pub mod outcome;
pub mod stop;
