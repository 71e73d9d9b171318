// Where a new place is wanted.

// How the new place is to stand to the one that an open names.
#[derive(Clone, Copy, PartialEq, Eq, Debug)]
pub enum Where {
    // Below it, before all its children.
    FirstUnder,
    // Below it, behind all its children.
    LastUnder,
    // Directly before it, under the same parent.
    Before,
    // Directly behind it, under the same parent.
    After,
}
