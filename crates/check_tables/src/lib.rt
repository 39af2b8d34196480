// Whether lent words are a sound machine's, table by table.
#![tactic(auto)]

pub mod catches;
pub mod chain;
pub mod frames;
pub mod queue;
pub mod rest;
pub mod room;
pub mod setup;
