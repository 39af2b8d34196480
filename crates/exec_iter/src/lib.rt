// coro.rs: iter_next, after its gate and charge.
#![tactic(auto)]

pub mod iter;
