// coro.rs: deliveries, and the end of a coroutine.
#![tactic(auto)]

pub mod abort;
pub mod deliver;
pub mod escaped;
pub mod finish;
pub mod iter;
pub mod last;
pub mod returned;
