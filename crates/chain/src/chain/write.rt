// Writing into a chain.
ghost use Rattle.std.specs.Prelude.{◌≡◌, ◌<◌, length, slice_set};
ghost use Rattle.shelf.specs.Rows.{Absent, row_at, restated};
ghost use Rattle.shelf.specs.Changes.{with_row};
ghost use Rattle.chain.specs.Chains.{chain_rows, chain_capacity, ComesBehind, Stays};

use super::Chain;
use crate::link::Link;
use shelf::{Row, State};
use std::mem;

impl<'a> Chain<'a> {
    // Sets a row in by its label, behind the one in a slot or before all. It goes into the first free slot, and no other row is touched:
    // what told the slot of the row behind it tells the new row's, and the new row tells that one.
    pub(crate) fn hook(&mut self, before: Option<usize>, row: Row)
        requires absent { Absent (chain_rows self.old) row.label }
        requires room { length (chain_rows self.old) < chain_capacity self.old }
        requires behind { ComesBehind self.old row.label before }
        ensures rows { chain_rows self.new ≡ with_row (chain_rows self.old) row }
        ensures capacity { chain_capacity self.new ≡ chain_capacity self.old }
        ensures stays { Stays self.old self.new }
    {
        let free = self.len;
        let links = &mut *self.links;
        let next = match before {
            None => mem::replace(&mut self.head, free as u16),
            Some(slot) => mem::replace(&mut links[slot].next, free as u16),
        };
        links[free] = Link { row, next };
        self.len = free + 1;
    }

    // Gives the row at an index another state and card word, in its slot.
    pub(crate) fn restate(&mut self, index: usize, state: State, card: u64)
        requires { index < length (chain_rows self.old) }
        ensures rows { chain_rows self.new ≡ slice_set (chain_rows self.old) index (restated (row_at (chain_rows self.old) index) state card) }
        ensures capacity { chain_capacity self.new ≡ chain_capacity self.old }
        ensures stays { Stays self.old self.new }
    {
        let at = self.slot(index);
        self.links[at].row = self.links[at].row.restated(state, card);
    }
}
