// Looking through any reading shelf.
ghost use Rattle.shelf.specs.Scan.{NextFilled};

use crate::reading::Reading;
use crate::row::{Row, State};
use crate::rows::Rows;
use label::Word;

// The first filled row with a label greater than a mark, and its index; none where there is no such row.
// The scan begins at the mark's rank, so the rows before the mark are never looked at.
pub fn next_filled<S: Reading>(shelf: &S, mark: Word) -> Option<(usize, Row)>
    ensures { NextFilled (S.Reading.rows shelf.now) mark result }
{
    let start = shelf.rank(mark);
    let count = shelf.count();
    (start..count)
        .zip(Rows::new(shelf, start..count))
        .find(|(_, row)| row.label > mark && row.state == State::Filled)
}
