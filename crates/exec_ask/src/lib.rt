// coro.rs: exec, its arms that ask, after their gate and charge.
#![tactic(auto)]

pub mod ask;
