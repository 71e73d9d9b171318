// The ordered table as a shelf.
ghost use Rattle.std.specs.Prelude.{◌≡◌, min, [], length};
ghost use Rattle.shelf.specs.Rows.{most_rows};
ghost use Rattle.shelf.specs.Tables.{table_rows, table_capacity, table_lawful, table_bounded};

use super::OrderedTable;
use crate::fault::ShelfFault;
use crate::keeping::Keeping;
use crate::reading::{MOST_ROWS, Reading};
use crate::row::{Row, State};
use crate::slice::seek_rows;
use label::Word;

impl<'a> OrderedTable<'a> {
    // An empty table over the slots, whatever they hold.
    pub fn new(rows: &'a mut [Row]) -> Self
        ensures empty { table_rows result ≡ [] }
        ensures capacity { table_capacity result ≡ min (length rows.old) most_rows }
    {
        OrderedTable {
            slots: rows,
            len: 0,
        }
    }

    // The slots in use.
    fn rows(&self) -> &[Row]
        ensures { result.now ≡ table_rows self.now }
    {
        &self.slots[..self.len]
    }
}

impl<'a> Reading for OrderedTable<'a> {
    ghost rows = { table_rows };

    ghost lawful = { table_lawful };

    fn count(&self) -> usize {
        self.rows().len()
    }

    fn row(&self, index: usize) -> Option<Row> {
        self.rows().get(index).copied()
    }

    fn seek(&self, label: Word) -> Result<usize, usize> {
        seek_rows(self.rows(), label)
    }
}

impl<'a> Keeping for OrderedTable<'a> {
    ghost capacity = { table_capacity };

    ghost bounded = { table_bounded };

    fn capacity(&self) -> usize {
        self.slots.len().min(MOST_ROWS)
    }

    fn put(&mut self, row: Row) -> Result<(), ShelfFault> {
        let Err(at) = self.seek(row.label) else {
            return Err(ShelfFault::Held);
        };
        if (*self).is_full() {
            return Err(ShelfFault::Full);
        }
        self.insert(at, row);
        Ok(())
    }

    fn set(&mut self, index: usize, state: State, card: u64) -> Result<(), ShelfFault> {
        if index >= self.count() {
            return Err(ShelfFault::Index);
        }
        self.restate(index, state, card);
        Ok(())
    }
}
