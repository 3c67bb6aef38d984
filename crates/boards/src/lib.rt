#![tactic(auto)]

pub mod board;
mod provider;
pub mod quoting;
pub mod reading;
