// coro.rs: exec, its arms that make coroutines, after their gate and charge.
#![tactic(auto)]

pub mod indirect;
pub mod new;
pub mod spawn;
