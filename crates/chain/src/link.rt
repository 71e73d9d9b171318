// Links: the memory of a chain.
use shelf::Row;

// A row, and the slot of the row with the next greater label.
#[derive(Clone, Copy)]
pub struct Link {
    pub(crate) row: Row,
    pub(crate) next: u16,
}

impl Link {
    // A link to fill memory with before it is handed in.
    pub const BLANK: Link = Link {
        row: Row::BLANK,
        next: 0,
    };
}
