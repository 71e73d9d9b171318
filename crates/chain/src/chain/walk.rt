// Walking along a chain.
ghost use Rattle.std.specs.Prelude.{◌≡◌, ◌<◌};
ghost use Rattle.shelf.specs.Rows.{row_at};
ghost use Rattle.chain.specs.Links.{link_at, slot_at};
ghost use Rattle.chain.specs.Chains.{chain_rows, Seated};

use super::Chain;
use crate::link::Link;
use crate::vacancy::Vacancy;
use label::Word;
use std::cmp::Ordering;

impl<'a> Chain<'a> {
    // The slot of the row at an index.
    pub(crate) fn slot(&self, index: usize) -> usize
        requires { index < self.now.len }
        ensures at { result ≡ slot_at self.now.links.now self.now.head index }
        ensures inside { result < self.now.len }
        ensures row { row_at (chain_rows self.now) index ≡ (link_at self.now.links.now result).row }
    {
        let mut at = usize::from(self.head);
        for _ in 0..index {
            at = usize::from(self.links[at].next);
        }
        at
    }

    // The index of the row with the label, or where its row would stand, by one walk that ends at the first label not below it.
    pub(crate) fn seat(&self, label: Word) -> Result<usize, Vacancy>
        ensures { Seated self.now label result }
    {
        let mut before = None;
        let mut at = usize::from(self.head);
        for index in 0..self.len {
            let Link { row, next } = self.links[at];
            match row.label.cmp(&label) {
                Ordering::Less => {
                    before = Some(at);
                    at = usize::from(next);
                }
                Ordering::Equal => return Ok(index),
                Ordering::Greater => return Err(Vacancy { index, before }),
            }
        }
        Err(Vacancy {
            index: self.len,
            before,
        })
    }
}
