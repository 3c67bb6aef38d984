#![tactic(auto)]

pub mod lent;
pub mod rounding;
pub mod source;
