// Rows up to a label.
ghost use Rattle.neighbours.specs.Ranks.{Past};

use label::Word;
use shelf::Reading;

// How many rows have a label up to this one.
pub(crate) fn rank_past<S: Reading>(shelf: &S, label: Word) -> usize
    ensures { Past (S.Reading.rows shelf.now) label result }
{
    match shelf.seek(label) {
        Ok(index) => index + 1,
        Err(index) => index,
    }
}
