// exec.rs: charge. coro.rs: charge_slow, start_finalizer, spawn_task.
#![tactic(auto)]

pub mod charge;
pub mod finalizer;
pub mod join;
