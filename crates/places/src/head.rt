// The head of a sheet.
ghost use Rattle.std.specs.Prelude.{◌≡◌};
ghost use Rattle.label.specs.Label.{word_bits};
ghost use Rattle.gap.specs.PlanLabels.{labels_of};

use label::{WORD_BITS, Word};
use plan::WidthPlan;

// The label of the head: one level with the one subvalue 1.
pub fn head_label<P: WidthPlan>(plan: &P) -> Word
    ensures { result ≡ (labels_of (P.width plan.now) word_bits).head }
{
    1 << (WORD_BITS - plan.width(1, 0))
}
