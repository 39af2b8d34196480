// machine.rs: unwind.
#![tactic(auto)]

pub mod handler;
pub mod leave;
pub mod search;
pub mod turn;
pub mod unwind;
