// Shelves that rows are put on.
ghost use Rattle.std.specs.Prelude.{◌≡◌, ℕ, ◌≤◌, length, nat_le};
ghost use Rattle.shelf.specs.Rows.{most_rows};
ghost use Rattle.shelf.specs.Changes.{Put, Set, IfRefused};

use crate::fault::ShelfFault;
use crate::reading::Reading;
use crate::row::{Row, State};

// A keeping shelf is a reading shelf with room for a number of rows, which no call changes.
// Its changes are promised by what they make of the list that it means. A change that is turned down leaves the whole shelf as it was.
pub trait Keeping: Reading {
    // How many rows there is room for.
    ghost capacity: { Self → ℕ };

    fn capacity(&self) -> usize
        ensures { result ≡ capacity self.now };

    // Whether there is no room for another row.
    fn is_full(&self) -> bool
        ensures { result ≡ nat_le (capacity self.now) (length (Self.Reading.rows self.now)) }
    {
        self.count() >= self.capacity()
    }

    // Sets a row in by its label. Refused where a row has the label, and then where the shelf is full.
    fn put(&mut self, row: Row) -> Result<(), ShelfFault>
        ensures rows { Put (Self.Reading.rows self.old) (capacity self.old) row result (Self.Reading.rows self.new) }
        ensures capacity { capacity self.new ≡ capacity self.old }
        ensures refused { IfRefused result (self.new ≡ self.old) };

    // Gives the row at an index another state and card word. Refused past the end.
    // Kept: a state and a card word are no type of their own: a row has a field for each, and `set(index, Content { state, card })`, here and where a shelf restates a row, is longer than `set(index, state, card)`.
    fn set(&mut self, index: usize, state: State, card: u64) -> Result<(), ShelfFault>
        ensures rows { Set (Self.Reading.rows self.old) index state card result (Self.Reading.rows self.new) }
        ensures capacity { capacity self.new ≡ capacity self.old }
        ensures refused { IfRefused result (self.new ≡ self.old) };

    // There is never room for more rows than a lawful list has.
    ghost bounded: { (s : Self) → capacity s ≤ most_rows };
}
