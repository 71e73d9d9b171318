// A spelling as a list that grows at its end.
ghost use Rattle.std.specs.Prelude.{◌≡◌, ◌+◌, ◌<◌, [], ◌∷◌, ◌++◌};
ghost use Rattle.label.specs.Listed.{listed, most_subvalues};

use super::{MOST_SUBVALUES, Spelling};
use crate::subvalue::Subvalue;

impl Spelling {
    pub(crate) fn empty() -> Spelling
        ensures list { listed result ≡ [] }
        ensures count { result.count ≡ 0 }
    {
        let blank = Subvalue {
            value: 0,
            ends_level: false,
        };
        Spelling {
            subvalues: [blank; MOST_SUBVALUES],
            count: 0,
        }
    }

    pub(crate) fn push(&mut self, subvalue: Subvalue)
        requires { self.old.count < most_subvalues }
        ensures list { listed self.new ≡ listed self.old ++ (subvalue ∷ []) }
        ensures count { self.new.count ≡ self.old.count + 1 }
    {
        self.subvalues[self.count] = subvalue;
        self.count += 1;
    }

    // The subvalues as a slice.
    pub fn as_slice(&self) -> &[Subvalue]
        ensures { result.now ≡ listed self.now }
    {
        &self.subvalues[0..self.count]
    }
}
