// Rows that lie in a slice, searched.
ghost use Rattle.shelf.specs.Rows.{Rising, Met, Sought};

use crate::row::Row;
use label::Word;

// Where a label stands among rows that rise: `Ok` with the index of its row, or `Err` with the index that its row would have.
// This is `Reading::seek` for a shelf that has its rows in a slice. Of rows that do not rise only `met` holds.
// Kept: the library's binary search goes on to its end where the label was met long before; this one answers at once. It compares as `Reading::seek` does.
pub fn seek_rows(rows: &[Row], label: Word) -> Result<usize, usize>
    ensures met { Met rows.now label result }
    ensures sought { Rising rows.now → Sought rows.now label result }
{
    let mut low = 0;
    let mut high = rows.len();
    while low < high {
        let middle = low + (high - low) / 2;
        let here = rows[middle].label;
        if here == label {
            return Ok(middle);
        }
        if here < label {
            low = middle + 1;
        } else {
            high = middle;
        }
    }
    Err(low)
}
