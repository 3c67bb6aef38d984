// Worked figures of the rules, and tests over piles of sources.
#![tactic(auto)]

#[cfg(test)]
mod boards_tests;
#[cfg(test)]
mod calls;
#[cfg(test)]
mod days_tests;
#[cfg(test)]
mod piles_tests;
#[cfg(test)]
mod sheets_tests;
pub mod worked;
