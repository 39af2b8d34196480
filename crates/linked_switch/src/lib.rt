// Switches with gate and charge, on words that stand for a sound machine: those that nothing refuses are done on the words.
#![tactic(auto)]

pub mod answer;
pub mod enter;
pub mod enters;
pub mod leave;
pub mod leaves;
pub mod resume;
pub mod yielding;
