// machine.rs: finish. conv.rs: to_dyn.
#![tactic(auto)]

pub mod cont;
pub mod convert;
pub mod finish;
