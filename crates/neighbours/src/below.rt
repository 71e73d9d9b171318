// What stands below a label.
ghost use Rattle.std.specs.Prelude.{Decides};
ghost use Rattle.neighbours.specs.Below.{InUse, Occupied};
ghost use Rattle.neighbours.specs.Planned.{labels, rows};

use crate::planned::PlannedShelf;
use crate::rank::rank_past;
use crate::words::{is_label, led_up_to};
use label::Word;
use plan::WidthPlan;
use shelf::{Reading, Rows, State};

// Whether a row is filled or opened.
fn is_in_use(state: State) -> bool
    ensures { Decides result (InUse state) }
{
    state != State::Struck
}

impl<'a, P: WidthPlan, S: Reading> PlannedShelf<'a, P, S> {
    // Whether a filled or opened row stands below a label. Only the rows that it leads are looked at, up to the first that is in use.
    pub fn stands_below(&self, label: Word) -> bool
        ensures { Decides result (Occupied (labels P.WidthPlan self.now) (rows S.Reading self.now) label) }
    {
        let Some(end) = led_up_to(self.plan, label) else {
            return false;
        };
        Rows::new(self.shelf, rank_past(self.shelf, label)..self.shelf.count())
            .take_while(|row| row.label < end)
            .any(|row| is_in_use(row.state) && is_label(self.plan, row.label))
    }
}
