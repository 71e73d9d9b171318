// Shelves that are read.
ghost use Rattle.std.specs.Prelude.{◌≡◌, ◌<◌, ◌≤◌, List, length};
ghost use Rattle.shelf.specs.declared.row.Row.{Row};
ghost use Rattle.shelf.specs.Rows.{LawfulRows, RowAt, Sought, rank_of, index_of};

use crate::row::Row;
use label::Word;

// How many rows a shelf has at most.
pub const MOST_ROWS: usize = 2048;

// A reading shelf means a list of rows: at most 2,048, and each with a greater label than the one before.
// Its questions are on that list, and change nothing.
pub trait Reading {
    // The list that the shelf means.
    ghost rows: { Self → List Row };

    // How many rows there are.
    fn count(&self) -> usize
        ensures { result ≡ length (rows self.now) };

    // The row at an index, or none past the end.
    fn row(&self, index: usize) -> Option<Row>
        ensures { RowAt (rows self.now) index result };

    // Where a label stands: `Ok` with the index of its row, or `Err` with the index that its row would have.
    // By halving, for a shelf that is quick to answer a row. A shelf that has its rows in a slice answers by `seek_rows`.
    fn seek(&self, label: Word) -> Result<usize, usize>
        ensures { Sought (rows self.now) label result }
    {
        // Kept: for shelves without a slice of their rows; the library searches slices alone, and one made first would ask for every row, where halving asks for twelve at most.
        // Kept: compared by `==` and `<`; of what `cmp` answers a number is made before the branch, which makes a look half as long again.
        let mut low = 0;
        let mut high = self.count();
        while low < high {
            let middle = low + (high - low) / 2;
            let Some(row) = self.row(middle) else {
                unreachable()
            };
            if row.label == label {
                return Ok(middle);
            }
            if row.label < label {
                low = middle + 1;
            } else {
                high = middle;
            }
        }
        Err(low)
    }

    // How many rows have a smaller label.
    fn rank(&self, label: Word) -> usize
        ensures { result ≡ rank_of (rows self.now) label }
    {
        self.seek(label).unwrap_or_else(|index| index)
    }

    // The index of the row with the label, or none.
    fn find(&self, label: Word) -> Option<usize>
        ensures { result ≡ index_of (rows self.now) label }
    {
        self.seek(label).ok()
    }

    // Every shelf's list is lawful, whatever was done to the shelf.
    ghost lawful: { (s : Self) → LawfulRows (rows s) };
}
