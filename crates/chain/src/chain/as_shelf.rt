// The chain as a shelf.
ghost use Rattle.std.specs.Prelude.{◌≡◌, min, [], length};
ghost use Rattle.shelf.specs.Rows.{most_rows};
ghost use Rattle.shelf.specs.Changes.{Put, Set, IfRefused};
ghost use Rattle.chain.specs.Chains.{chain_rows, chain_capacity, chain_lawful, chain_bounded, Stays};

use super::Chain;
use crate::link::Link;
use label::Word;
use shelf::{Keeping, MOST_ROWS, Reading, Row, ShelfFault, State};

impl<'a> Chain<'a> {
    // An empty chain over the links, whatever they hold.
    pub fn new(links: &'a mut [Link]) -> Self
        ensures empty { chain_rows result ≡ [] }
        ensures capacity { chain_capacity result ≡ min (length links.old) most_rows }
    {
        Chain {
            links,
            head: 0,
            len: 0,
        }
    }
}

impl<'a> Reading for Chain<'a> {
    ghost rows = { chain_rows };

    ghost lawful = { chain_lawful };

    fn count(&self) -> usize {
        self.len
    }

    // Kept: a chain has no slice of its rows whose `get` could answer. `bool::then` was tried, and it tells the proof nothing of what this closure answers, even where the closure has an `ensures` of its own.
    fn row(&self, index: usize) -> Option<Row> {
        if index < self.count() {
            Some(self.links[self.slot(index)].row)
        } else {
            None
        }
    }

    // By one walk, since a row is reached only through those before it.
    fn seek(&self, label: Word) -> Result<usize, usize> {
        self.seat(label).map_err(|vacancy| vacancy.index)
    }
}

impl<'a> Keeping for Chain<'a> {
    ghost capacity = { chain_capacity };

    ghost bounded = { chain_bounded };

    fn capacity(&self) -> usize {
        self.links.len().min(MOST_ROWS)
    }

    // No row that the chain had leaves its slot.
    fn put(&mut self, row: Row) -> Result<(), ShelfFault>
        ensures rows { Put (chain_rows self.old) (chain_capacity self.old) row result (chain_rows self.new) }
        ensures capacity { chain_capacity self.new ≡ chain_capacity self.old }
        ensures refused { IfRefused result (self.new ≡ self.old) }
        ensures stays { Stays self.old self.new }
    {
        let Err(vacancy) = self.seat(row.label) else {
            return Err(ShelfFault::Held);
        };
        if (*self).is_full() {
            return Err(ShelfFault::Full);
        }
        self.hook(vacancy.before, row);
        Ok(())
    }

    // Kept: the table's `set` has this body over its own `restate`. One `set` in the trait would need a public `restate` in it, which asks its caller for an index in range, and no public function may ask for anything.
    fn set(&mut self, index: usize, state: State, card: u64) -> Result<(), ShelfFault>
        ensures rows { Set (chain_rows self.old) index state card result (chain_rows self.new) }
        ensures capacity { chain_capacity self.new ≡ chain_capacity self.old }
        ensures refused { IfRefused result (self.new ≡ self.old) }
        ensures stays { Stays self.old self.new }
    {
        if index >= self.count() {
            return Err(ShelfFault::Index);
        }
        self.restate(index, state, card);
        Ok(())
    }
}
