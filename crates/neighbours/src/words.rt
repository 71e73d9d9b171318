// What a word says under a plan.
ghost use Rattle.std.specs.Prelude.{◌≡◌, T, Decides};
ghost use Rattle.label.specs.Label.{word_bits};
ghost use Rattle.gap.specs.PlanLabels.{labels_of};
ghost use Rattle.neighbours.specs.Below.{LedEnd};
ghost use Rattle.neighbours.specs.Children.{ChildrenEnd};

use label::{Word, led_end, read};
use plan::WidthPlan;

// The parent of a word's label: none at level 1, and for a word that is no label's.
pub(crate) fn parent_of<P: WidthPlan>(plan: &P, word: Word) -> Option<Word>
    ensures { (labels_of (P.width plan.now) word_bits).parent word ≡ result }
{
    read(plan, word).ok()?.parent
}

// Whether a word is a lawful label's.
pub fn is_label<P: WidthPlan>(plan: &P, word: Word) -> bool
    ensures { Decides result (T ((labels_of (P.width plan.now) word_bits).lawful word)) }
{
    read(plan, word).is_ok()
}

// The end of the words that a label leads, its children's among them. None where it leads nothing: the word is no label's, or it has all bits of a word.
pub(crate) fn led_up_to<P: WidthPlan>(plan: &P, label: Word) -> Option<Word>
    ensures led { LedEnd (labels_of (P.width plan.now) word_bits) label result }
    ensures children { ChildrenEnd (labels_of (P.width plan.now) word_bits) label result }
{
    led_end(plan, label).ok().flatten()
}
