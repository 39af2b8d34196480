// The lower crate: words, integers, the object table and its charges.
#![tactic(auto)]

pub mod fault;
pub mod field;
pub mod heap;
pub mod int;
pub mod kind;
mod layout;
pub mod object;
pub mod ranges;
pub mod slot;
pub mod state;
pub mod value;
