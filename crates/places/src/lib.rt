// What the rows of a sheet say of a place: the row that a label has, whether a place may be struck or settled, and the label that a new place gets.
#![tactic(auto)]

mod fault;
mod head;
mod opening;
mod rows;
mod striking;

pub use fault::SheetFault;
pub use head::head_label;
pub use opening::new_label;
pub use rows::{known_row, opened_row};
pub use striking::row_to_strike;
