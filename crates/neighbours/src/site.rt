// Where a new place is opened.
ghost use Rattle.std.specs.Prelude.{◌≡◌};
ghost use Rattle.label.specs.Label.{word_bits};
ghost use Rattle.gap.specs.PlanLabels.{labels_of};
ghost use Rattle.laws.specs.Openings.{above_new, beside};

use crate::words::parent_of;
use label::Word;
use laws::Where;
use plan::WidthPlan;

// The label at whose place a new one is opened, and whether it comes under that place or beside it.
#[derive(Clone, Copy, PartialEq, Eq, Debug)]
pub struct Site {
    pub label: Word,
    pub place: Where,
}

impl Site {
    // Whether the new place comes beside the label's, and not under it.
    pub fn is_beside(&self) -> bool
        ensures { result ≡ beside self.now.place }
    {
        matches!(self.place, Where::Before | Where::After)
    }

    // The parent of the new place: the label's place, or its parent.
    pub fn parent<P: WidthPlan>(&self, plan: &P) -> Option<Word>
        ensures { above_new (labels_of (P.width plan.now) word_bits) self.now.place self.now.label ≡ result }
    {
        if self.is_beside() {
            parent_of(plan, self.label)
        } else {
            Some(self.label)
        }
    }
}
