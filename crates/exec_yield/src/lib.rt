// coro.rs: exec, its arms that suspend, after their gate and charge.
#![tactic(auto)]

pub mod suspending;
pub mod yielding;
