// The machine as definitions: the types that the definitions and the code share.
#![tactic(auto)]

pub mod call;
pub mod coro;
pub mod exec;
pub mod machine;
pub mod program;
