// Labels of places in a tree: their words, reading and writing them, and the order in which they are read.
#![tactic(auto)]

mod cursor;
mod fault;
mod leading;
mod piece;
mod prefix;
mod reading;
mod relation;
mod spelling;
mod spot;
mod subvalue;
mod taking_apart;
mod word;
mod writing;

pub use fault::LabelFault;
pub use leading::led_end;
pub use reading::{WordReading, read};
pub use relation::{Relation, relate, words_stand};
pub use spelling::{MOST_SUBVALUES, Spelling};
pub use subvalue::Subvalue;
pub use taking_apart::take_apart;
pub use word::{WORD_BITS, Word};
pub use writing::write;

#[cfg(test)]
mod tests;
