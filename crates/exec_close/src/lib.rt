// coro.rs: exec, CoroClose, after its gate and charge.
#![tactic(auto)]

pub mod close;
