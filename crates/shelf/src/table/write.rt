// Writing into an ordered table.
ghost use Rattle.std.specs.Prelude.{◌≡◌, ◌+◌, ◌<◌, ◌≤◌, ◌++◌, length, take, drop, slice_set};
ghost use Rattle.std.specs.List.{insert};
ghost use Rattle.shelf.specs.Rows.{Absent, rank_of, row_at, restated};
ghost use Rattle.shelf.specs.Changes.{with_row};
ghost use Rattle.shelf.specs.Tables.{table_rows, table_capacity};

use super::OrderedTable;
use crate::row::{Row, State};

// Sets the row in at an index of the first `len` rows. Those from there on move up by one slot.
fn insert_row(slots: &mut [Row], len: usize, at: usize, row: Row)
    requires within { at ≤ len }
    requires room { len < length slots.old }
    ensures { slots.new ≡ insert (take len slots.old) at row ++ drop (len + 1) slots.old }
{
    slots.copy_within(at..len, at + 1);
    slots[at] = row;
}

impl<'a> OrderedTable<'a> {
    // Sets a row in at its rank.
    pub(crate) fn insert(&mut self, at: usize, row: Row)
        requires absent { Absent (table_rows self.old) row.label }
        requires rank { at ≡ rank_of (table_rows self.old) row.label }
        requires room { length (table_rows self.old) < table_capacity self.old }
        ensures rows { table_rows self.new ≡ with_row (table_rows self.old) row }
        ensures capacity { table_capacity self.new ≡ table_capacity self.old }
    {
        insert_row(self.slots, self.len, at, row);
        self.len += 1;
    }

    // Gives the row at an index another state and card word.
    pub(crate) fn restate(&mut self, index: usize, state: State, card: u64)
        requires { index < length (table_rows self.old) }
        ensures rows { table_rows self.new ≡ slice_set (table_rows self.old) index (restated (row_at (table_rows self.old) index) state card) }
        ensures capacity { table_capacity self.new ≡ table_capacity self.old }
    {
        self.slots[index] = self.slots[index].restated(state, card);
    }
}
