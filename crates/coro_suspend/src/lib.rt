// coro.rs: coro_suspend, on the lent words.
#![tactic(auto)]

pub mod suspend;
