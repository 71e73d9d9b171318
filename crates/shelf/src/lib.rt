// Shelves: lists of rows by their labels, what every shelf promises, and the ordered table, which keeps its rows in memory handed in.
#![tactic(auto)]

mod fault;
mod keeping;
mod lent;
mod reading;
mod row;
mod rows;
mod scan;
mod slice;
mod table;

pub use fault::ShelfFault;
pub use keeping::Keeping;
pub use reading::{MOST_ROWS, Reading};
pub use row::{Row, State};
pub use rows::Rows;
pub use scan::next_filled;
pub use slice::seek_rows;
pub use table::OrderedTable;
