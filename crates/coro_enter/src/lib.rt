// coro.rs: coro_enter, the mark of a close, and an entry with the word that is sent.
#![tactic(auto)]

pub mod arrival;
pub mod close;
pub mod enter;
