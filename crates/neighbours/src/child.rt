// Children of a parent among the rows of a shelf.
ghost use Rattle.std.specs.Prelude.{Some};
ghost use Rattle.neighbours.specs.Children.{ChildrenEnd, LastChild, FirstChild};
ghost use Rattle.neighbours.specs.Planned.{labels, rows};

use crate::planned::PlannedShelf;
use crate::words::parent_of;
use label::Word;
use plan::WidthPlan;
use shelf::{Reading, Rows};

impl<'a, P: WidthPlan, S: Reading> PlannedShelf<'a, P, S> {
    // The last child of `parent` among the first `count` rows. The walk goes back from there, and stops at the first child or where the rows are no longer below the parent.
    pub(crate) fn last_child(&self, parent: Word, count: usize) -> Option<Word>
        ensures { LastChild (labels P.WidthPlan self.now) (rows S.Reading self.now) parent count result }
    {
        Rows::new(self.shelf, 0..count)
            .rev()
            .take_while(|row| row.label > parent)
            .find(|row| parent_of(self.plan, row.label) == Some(parent))
            .map(|row| row.label)
    }

    // The first child of `parent` from the row `start` on. The walk stops at the first child or at a row that is not below `end`, past which the parent has no children.
    pub(crate) fn first_child(&self, parent: Word, end: Word, start: usize) -> Option<Word>
        requires { ChildrenEnd (labels P.WidthPlan self.now) parent (Some end) }
        ensures { FirstChild (labels P.WidthPlan self.now) (rows S.Reading self.now) parent start result }
    {
        Rows::new(self.shelf, start..self.shelf.count())
            .take_while(|row| row.label < end)
            .find(|row| parent_of(self.plan, row.label) == Some(parent))
            .map(|row| row.label)
    }

    // The last child of `parent` before a row, and the first from it on.
    pub(crate) fn children_around(
        &self,
        parent: Word,
        end: Word,
        at: usize,
    ) -> (Option<Word>, Option<Word>)
        requires { ChildrenEnd (labels P.WidthPlan self.now) parent (Some end) }
        ensures lower { LastChild (labels P.WidthPlan self.now) (rows S.Reading self.now) parent at result.0 }
        ensures upper { FirstChild (labels P.WidthPlan self.now) (rows S.Reading self.now) parent at result.1 }
    {
        (
            self.last_child(parent, at),
            self.first_child(parent, end, at),
        )
    }
}
