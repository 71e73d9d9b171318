// The label of a new place.
ghost use Rattle.std.specs.Prelude.{◌≡◌, ℕ, T, Some, Decides};
ghost use Rattle.label.specs.Label.{word_bits};
ghost use Rattle.gap.specs.PlanLabels.{labels_of};
ghost use Rattle.laws.specs.Openings.{above_new, beside, LabelFor};
ghost use Rattle.laws.specs.Calls.{place_checks};
ghost use Rattle.neighbours.specs.Planned.{labels, rows};
ghost use Rattle.places.specs.Checks.{parent_checks};
ghost use Rattle.places.specs.Checked.{Checked};

use crate::fault::SheetFault;
use crate::head::head_label;
use crate::rows::{is_filled, known_row};
use gap::{Bounds, between};
use label::Word;
use neighbours::{PlannedShelf, Site};
use plan::WidthPlan;
use shelf::Reading;

// Whether a new place would come beside the head.
fn is_beside_head<P: WidthPlan>(plan: &P, site: Site) -> bool
    ensures { Decides result (T (beside site.place) × (site.label ≡ (labels_of (P.width plan.now) word_bits).head)) }
{
    site.is_beside() && site.label == head_label(plan)
}

// The parent of a new place, which must be filled.
fn filled_parent<P: WidthPlan, S: Reading>(
    planned: &PlannedShelf<P, S>,
    site: Site,
) -> Result<Word, SheetFault>
    ensures { Checked (parent_checks (labels P.WidthPlan planned.now) (rows S.Reading planned.now) site.label site.place) (λ (p : ℕ). above_new (labels P.WidthPlan planned.now) site.place site.label ≡ Some p) result }
{
    known_row(planned, site.label)?;
    if is_beside_head(planned.plan, site) {
        return Err(SheetFault::Head);
    }
    site.parent(planned.plan)
        .filter(|parent| is_filled(planned.shelf, *parent))
        .ok_or(SheetFault::Unfilled)
}

// The label of a new place that is opened at the place of a label. Refused where that label is unknown, where the new place would come beside the head, where its parent is not
// filled, and where no label is left between its neighbours.
pub fn new_label<P: WidthPlan, S: Reading>(
    planned: &PlannedShelf<P, S>,
    site: Site,
) -> Result<Word, SheetFault>
    ensures { Checked (place_checks (labels P.WidthPlan planned.now) (rows S.Reading planned.now) site.label site.place) (λ (x : ℕ). LabelFor (labels P.WidthPlan planned.now) (rows S.Reading planned.now) site.place site.label (Some x)) result }
{
    let parent = filled_parent(planned, site)?;
    let (lower, upper) = planned.neighbours(site, parent);
    // The parent's word is a label's, so it can be read.
    let Ok(choice) = between(planned.plan, parent, Bounds { lower, upper }) else {
        unreachable()
    };
    choice.ok_or(SheetFault::NoPlace)
}
