// What a sheet is doing.

// A firing lasts from an answered start to the end that next answers, or to an answered stop. While it lasts the sheet has a mark: the label of the row that
// next answered last, or 0 before the first.
#[derive(Clone, Copy, PartialEq, Eq, Debug)]
pub enum Phase {
    // No firing lasts. A start begins one.
    Resting,
    // A firing lasts, and next answers the first filled row past the mark.
    Firing,
    // A firing lasts, but next waits until it is resumed.
    Paused,
}
