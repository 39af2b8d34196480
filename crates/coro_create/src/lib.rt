// coro.rs: what makes objects, on the lent words.
#![tactic(auto)]

pub mod create;
pub mod key;
pub mod numbers;
pub mod row;
