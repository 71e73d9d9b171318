// One subvalue of a label.

// A subvalue, and whether it is the last of its level. A label is told by its subvalues from left to right: `1.9/1` by 1, which ends its level, 9, which does not, and 1, which does.
#[derive(Clone, Copy, PartialEq, Eq, Debug)]
pub struct Subvalue {
    pub value: u8,
    pub ends_level: bool,
}
