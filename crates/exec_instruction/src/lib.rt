// coro.rs: exec, an instruction with its gate and its charge.
#![tactic(auto)]

pub mod instruction;
pub mod operands;
