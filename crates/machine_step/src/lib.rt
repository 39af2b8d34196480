// Every call on sound words.
#![tactic(auto)]

pub mod dispatch;
pub mod gates;
pub mod kept;
pub mod widths;
