// The subvalues of one label.
ghost use Rattle.std.specs.Prelude.{◌≡◌, ◌≤◌, length};

use crate::subvalue::Subvalue;

// How many subvalues a label can have: each takes at least one bit, and a separator stands between two.
pub const MOST_SUBVALUES: usize = 32;

// The subvalues of a label from left to right.
// Kept: an array with a length beside it, since no heap is allowed below the program, and Spelling is a public Copy type, as the program's answers are, while the ArrayVec of the crate arrayvec is not Copy.
#[derive(Clone, Copy)]
pub struct Spelling {
    subvalues: [Subvalue; MOST_SUBVALUES],
    count: usize,
    ghost few: { count ≤ length subvalues },
}

mod listed;
mod text;
