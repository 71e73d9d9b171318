// Cards, the words that they are stored as, and why a word or numbers may make none.
#![tactic(auto)]

pub mod bounded;
pub mod fault;
pub mod firing;
pub mod kind;
pub mod menu;
#[cfg(test)]
mod tests;
