#![tactic(auto)]

mod checking;
pub mod entries;
pub mod entry;
pub mod fault;
pub mod meaning;
mod reading;
pub mod sheet;
mod word;
