// The factory's sheet as a shelf.
ghost use Rattle.factory.specs.Sheet.{WholeSheet};
ghost use Rattle.factory.specs.Factory.{factory_rows, factory_lawful};

use super::FactoryShelf;
use crate::programme::PROGRAMME;
use label::Word;
use shelf::{Reading, Row, seek_rows};

impl FactoryShelf {
    // The shelf of the programme. Its rows are all filled, and make up a whole sheet under the plan whose widths are all 4.
    pub fn new() -> Self
        ensures { WholeSheet (factory_rows result) }
    {
        FactoryShelf { rows: &PROGRAMME }
    }
}

impl Reading for FactoryShelf {
    ghost rows = { factory_rows };

    ghost lawful = { factory_lawful };

    fn count(&self) -> usize {
        self.rows.len()
    }

    fn row(&self, index: usize) -> Option<Row> {
        self.rows.get(index).copied()
    }

    fn seek(&self, label: Word) -> Result<usize, usize> {
        seek_rows(self.rows, label)
    }
}
