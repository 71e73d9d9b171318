// One step of reading: a subvalue and what is behind it.

use crate::subvalue::Subvalue;
use crate::word::Word;

// The subvalue at the left of some bits.
#[derive(Clone, Copy)]
pub struct Piece {
    pub subvalue: Subvalue,
    // The value of the bits behind its separator, or none where all bits behind the subvalue are 0: then it ends the label.
    pub behind: Option<Word>,
}
