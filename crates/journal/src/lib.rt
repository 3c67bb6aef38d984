#![tactic(auto)]

pub mod command;
pub mod complaint;
mod keyword;
mod number;
pub mod parsing;
mod words;
