// The permit of a furnace, and the hold on it.
#![tactic(auto)]

mod hold;
mod permit;

pub use hold::Hold;
pub use permit::Permit;
