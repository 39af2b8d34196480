// coro.rs: exec, the arm of an instruction.
#![tactic(auto)]

pub mod body;
pub mod entering;
pub mod staying;
