#![tactic(auto)]

pub mod fault;
pub mod lines;
pub mod making;
pub mod refusal;
pub mod table;
