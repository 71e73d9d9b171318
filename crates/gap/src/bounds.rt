// What a new label must lie between.
use label::Word;

// The words between which a new label must lie, both left out. None where a side has no bound.
#[derive(Clone, Copy, PartialEq, Eq, Debug, Default)]
pub struct Bounds {
    pub lower: Option<Word>,
    pub upper: Option<Word>,
}
