// coro.rs: exec, Resume and ResumeThrow, after their gate and charge.
#![tactic(auto)]

pub mod resume;
pub mod throw;
