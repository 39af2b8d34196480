// The machine's tables in lent words.
#![tactic(auto)]

pub mod active;
pub mod chain;
pub mod frame;
pub mod frames;
pub mod layout;
pub mod program;
pub mod queue;
pub mod rows;
pub mod runs;
pub mod stack;
