// The next siblings of a new place.
ghost use Rattle.neighbours.specs.Next.{Neighbours};
ghost use Rattle.neighbours.specs.Planned.{labels, rows};

use crate::planned::PlannedShelf;
use crate::rank::rank_past;
use crate::site::Site;
use crate::words::led_up_to;
use label::Word;
use laws::Where;
use plan::WidthPlan;
use shelf::Reading;

impl<'a, P: WidthPlan, S: Reading> PlannedShelf<'a, P, S> {
    // The next lower and the next upper sibling of a new place under `parent`: of the parent's children with a row, in whatever state, the last that comes to stand before it
    // and the first behind it. A word that is no label, or has no room below it, has no children.
    // Kept: a pair and no `Bounds`, since the rules of the project name a pair for what this search answers.
    pub fn neighbours(&self, site: Site, parent: Word) -> (Option<Word>, Option<Word>)
        ensures { Neighbours (labels P.WidthPlan self.now) (rows S.Reading self.now) site.place site.label parent result }
    {
        let Some(end) = led_up_to(self.plan, parent) else {
            return (None, None);
        };
        match site.place {
            Where::FirstUnder => {
                let start = self.shelf.rank(parent);
                (None, self.first_child(parent, end, start))
            }
            Where::LastUnder => (self.last_child(parent, self.shelf.rank(end)), None),
            Where::Before => self.children_around(parent, end, self.shelf.rank(site.label)),
            Where::After => self.children_around(parent, end, rank_past(self.shelf, site.label)),
        }
    }
}
