// The neighbours of a new place among the rows of any shelf, and what stands below a label.
#![tactic(auto)]

mod below;
mod child;
mod next;
mod planned;
mod rank;
mod site;
mod words;

pub use planned::PlannedShelf;
pub use site::Site;
pub use words::is_label;
