// What a walk along a chain finds out about a label that no row has.

// Where the label's row would stand: at this index, behind the row in this slot, or before all.
#[derive(Clone, Copy)]
pub struct Vacancy {
    pub index: usize,
    pub before: Option<usize>,
}
