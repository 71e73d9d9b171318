// A stretch of a shelf's rows, one after the other.
ghost use Rattle.std.specs.Prelude.{◌≡◌};
ghost use Rattle.std.specs.Iterator.{YieldsFirst, YieldsLast, item_count};
ghost use Rattle.shelf.specs.Stretch.{stretch};

use crate::reading::Reading;
use crate::row::Row;
use std::marker::Model;
use std::ops::Range;

// The rows of a shelf from one index up to another that are still to come, in the shelf's order.
// A row is asked of the shelf when it comes, and once: who stops early has looked at no row behind.
#[derive(Drop)]
pub struct Rows<'a, S: Reading> {
    shelf: &'a S,
    ahead: Range<usize>,
}

impl<'a, S: Reading> Model for Rows<'a, S> {
    ghost use Rattle.std.specs.Prelude.{◌≤◌, List, length};
    ghost use Rattle.shelf.specs.declared.row.Row.{Row};
    ghost use Rattle.shelf.specs.Stretch.{stretch};

    ghost Value = { List Row };

    ghost view = { λ it. stretch (S.Reading.rows it.shelf.now) it.ahead.start it.ahead.end };

    ghost invariant = { λ it. it.ahead.end ≤ length (S.Reading.rows it.shelf.now) };
}

impl<'a, S: Reading> Rows<'a, S> {
    // The rows with an index from the stretch's start on and below its end. The indices past the shelf's end have no rows.
    pub fn new(shelf: &'a S, indices: Range<usize>) -> Self
        ensures { result ≡ stretch (S.Reading.rows shelf.now) indices.start indices.end }
    {
        let end = indices.end.min(shelf.count());
        Rows {
            shelf,
            ahead: indices.start..end,
        }
    }
}

impl<'a, S: Reading> Iterator for Rows<'a, S> {
    type Item = Row;

    ghost next_gives = { YieldsFirst (λ rest. rest) };

    ghost remaining = { item_count (λ rest. rest) };

    fn next(&mut self) -> Option<Row> {
        let index = self.ahead.next()?;
        self.shelf.row(index)
    }
}

impl<'a, S: Reading> DoubleEndedIterator for Rows<'a, S> {
    ghost next_back_gives = { YieldsLast (λ rest. rest) };

    fn next_back(&mut self) -> Option<Row> {
        let index = self.ahead.next_back()?;
        self.shelf.row(index)
    }
}
