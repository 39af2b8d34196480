// A call in six words, and its answer in eight (docs/ABI.md).
#![tactic(auto)]

pub mod answer;
pub mod call;
pub mod codes;
pub mod layout;
pub mod written;
