// A label as text for people.
use super::Spelling;
use std::fmt;

// Levels are joined by `.` and the subvalues of a level by `/`, as in `1.9/1`.
impl fmt::Display for Spelling {
    fn fmt<W: fmt::Write>(&self, f: &mut fmt::Formatter<W>) -> fmt::Result {
        let mut separator = "";
        for subvalue in self.as_slice() {
            write!(f, "{separator}{}", subvalue.value)?;
            separator = if subvalue.ends_level { "." } else { "/" };
        }
        Ok(())
    }
}
