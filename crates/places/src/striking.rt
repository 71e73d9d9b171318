// Places that may be struck.
ghost use Rattle.std.specs.Prelude.{ℕ};
ghost use Rattle.neighbours.specs.Planned.{labels, rows};
ghost use Rattle.places.specs.Checks.{strike_checks};
ghost use Rattle.places.specs.Checked.{Checked, IsRow};

use crate::fault::SheetFault;
use crate::head::head_label;
use crate::rows::known_row;
use label::Word;
use neighbours::PlannedShelf;
use plan::WidthPlan;
use shelf::{Reading, Row, State};

// The index of the row to strike. Refused where the label is unknown, is the head's, is not filled, or has a filled or opened place below it.
pub fn row_to_strike<P: WidthPlan, S: Reading>(
    planned: &PlannedShelf<P, S>,
    label: Word,
) -> Result<usize, SheetFault>
    ensures { Checked (strike_checks (labels P.WidthPlan planned.now) (rows S.Reading planned.now) label) (λ (i : ℕ). (row : Row) × IsRow (rows S.Reading planned.now) label i row) result }
{
    let (index, row) = known_row(planned, label)?;
    if label == head_label(planned.plan) {
        return Err(SheetFault::Head);
    }
    if row.state != State::Filled {
        return Err(SheetFault::Unfilled);
    }
    if planned.stands_below(label) {
        return Err(SheetFault::NotBare);
    }
    Ok(index)
}
