// The row of a label.
ghost use Rattle.std.specs.Prelude.{ℕ, ◌<◌, Decides};
ghost use Rattle.laws.specs.Standing.{Filled, StandsAs};
ghost use Rattle.neighbours.specs.Planned.{labels, rows};
ghost use Rattle.places.specs.Checks.{known_checks, note_checks};
ghost use Rattle.places.specs.Checked.{Checked, IsRow, RowOf};

use crate::fault::SheetFault;
use label::Word;
use neighbours::{PlannedShelf, is_label};
use plan::WidthPlan;
use shelf::{Reading, Row, State};

// The row with a label and its index, or none.
pub(crate) fn row_of<S: Reading>(shelf: &S, label: Word) -> Option<(usize, Row)>
    ensures { RowOf (S.rows shelf.now) label result }
{
    let index = shelf.find(label)?;
    let row = shelf.row(index)?;
    Some((index, row))
}

// Whether the row with a label is filled; a label with no row has none that is.
pub(crate) fn is_filled<S: Reading>(shelf: &S, label: Word) -> bool
    ensures { Decides result (StandsAs Filled (S.rows shelf.now) label) }
{
    row_of(shelf, label).is_some_and(|(_, row)| row.state == State::Filled)
}

// The row with a label and its index. Refused where no row has it or the word is no label's.
pub fn known_row<P: WidthPlan, S: Reading>(
    planned: &PlannedShelf<P, S>,
    label: Word,
) -> Result<(usize, Row), SheetFault>
    ensures { Checked (known_checks (labels P.WidthPlan planned.now) (rows S.Reading planned.now) label) (λ (found : ℕ × Row). IsRow (rows S.Reading planned.now) label found.0 found.1) result }
{
    row_of(planned.shelf, label)
        .filter(|_| is_label(planned.plan, label))
        .ok_or(SheetFault::Unknown)
}

// The index of the opened row with a note's label. Refused where no opened row has it.
pub fn opened_row<S: Reading>(shelf: &S, label: Word) -> Result<usize, SheetFault>
    ensures { Checked (note_checks (S.rows shelf.now) label) (λ (i : ℕ). (row : Row) × IsRow (S.rows shelf.now) label i row) result }
{
    match row_of(shelf, label) {
        Some((index, row)) if row.state == State::Opened => Ok(index),
        _ => Err(SheetFault::NotOpen),
    }
}
