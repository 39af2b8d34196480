// The outer calls: every call of 01 on lent words, whatever they hold.
#![tactic(auto)]

pub mod call;
pub mod look;
pub mod set_up;
