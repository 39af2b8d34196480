// The functions that a C or Rust program links (docs/ABI.md). What is passed by value inside is lent in words here.
#![tactic(auto)]

pub mod begin;
pub mod call;
pub mod grant;
pub mod list;
pub mod look;
pub mod numbers;
pub mod tested;
