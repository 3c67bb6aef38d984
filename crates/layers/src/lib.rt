#![tactic(auto)]

pub mod gap;
pub mod reserve;
