// The chain: a keeping shelf in memory handed in that never moves a row.
#![tactic(auto)]

mod chain;
mod link;
mod vacancy;

pub use chain::Chain;
pub use link::Link;

#[cfg(test)]
mod tests;
