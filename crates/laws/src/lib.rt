// The laws of a sheet: what its calls mean, how each is answered, and three laws that hold of every run of calls.
#![tactic(auto)]

mod facts;
mod phase;
mod place;

pub use facts::{example_stands, laws_stand, steps_stand};
pub use phase::Phase;
pub use place::Where;
