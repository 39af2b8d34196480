// machine.rs: impl Machine, on the lent words.
#![tactic(auto)]

pub mod called;
pub mod coro;
pub mod frame;
pub mod fuel;
pub mod numbers;
pub mod object;
pub mod send;
pub mod setup;
pub mod way;
