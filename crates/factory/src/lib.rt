// The factory shelf: the sheet that a furnace comes with, for reading only.
#![tactic(auto)]

mod factory;
mod programme;

pub use factory::FactoryShelf;

#[cfg(test)]
mod tests;
