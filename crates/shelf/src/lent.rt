// A shelf that is lent for changing is itself a shelf, reading or keeping as the one lent, for code that holds its shelf by value. It means what the lent shelf means.
use crate::fault::ShelfFault;
use crate::keeping::Keeping;
use crate::reading::Reading;
use crate::row::{Row, State};
use label::Word;

impl<S: Reading> Reading for &mut S {
    ghost rows = { λ s. S.Reading.rows s.now };

    ghost lawful = { λ s. S.Reading.lawful s.now };

    fn count(&self) -> usize {
        (**self).count()
    }

    fn row(&self, index: usize) -> Option<Row> {
        (**self).row(index)
    }

    // By the lent shelf's own way, which may be quicker than halving.
    fn seek(&self, label: Word) -> Result<usize, usize> {
        (**self).seek(label)
    }

    fn rank(&self, label: Word) -> usize {
        (**self).rank(label)
    }

    fn find(&self, label: Word) -> Option<usize> {
        (**self).find(label)
    }
}

// Whoever writes a keeping shelf: inside its own `put` and `set`, `self.capacity()` would mean this impl, which stands on the one that is being written. Write `(*self).capacity()`.
impl<S: Keeping> Keeping for &mut S {
    ghost capacity = { λ s. S.Keeping.capacity s.now };

    ghost bounded = { λ s. S.Keeping.bounded s.now };

    fn capacity(&self) -> usize {
        (**self).capacity()
    }

    fn is_full(&self) -> bool {
        (**self).is_full()
    }

    fn put(&mut self, row: Row) -> Result<(), ShelfFault> {
        (**self).put(row)
    }

    fn set(&mut self, index: usize, state: State, card: u64) -> Result<(), ShelfFault> {
        (**self).set(index, state, card)
    }
}
