// How the labels of two words stand to each other.
ghost use Rattle.std.specs.Prelude.{ℕ, Some};
ghost use Rattle.label.specs.Label.{word_bits};
ghost use Rattle.label.specs.Order.{LabelsAreLevels};
ghost use Rattle.label.specs.Relation.{text_of};
ghost use Rattle.label.specs.Theorems.{Relates, OneLabel, OneOutcome, ReadingIs, LeadsByLevels, WordsInOrder, LedBetween};

use crate::fault::LabelFault;
use crate::prefix::Prefix;
use crate::reading::read;
use crate::word::Word;
use plan::WidthPlan;
use std::fmt;

// The first label against the second.
#[derive(Clone, Copy, PartialEq, Eq, Debug)]
pub enum Relation {
    Same,
    // The first leads the second.
    Above,
    // The second leads the first.
    Below,
    // By the words as numbers.
    Before,
    After,
}

// Shown as one word.
impl fmt::Display for Relation {
    ghost output = { λ relation. Some (text_of relation) };

    fn fmt<W: fmt::Write>(&self, f: &mut fmt::Formatter<W>) -> fmt::Result {
        f.write_str(match self {
            Relation::Same => "same",
            Relation::Above => "above",
            Relation::Below => "below",
            Relation::Before => "before",
            Relation::After => "after",
        })
    }
}

// The relation of two words; a fault of the first comes before one of the second.
pub fn relate<P: WidthPlan>(plan: &P, a: Word, b: Word) -> Result<Relation, LabelFault>
    ensures { Relates (P.width plan.now) word_bits a b result }
{
    let first = read(plan, a)?;
    let second = read(plan, b)?;
    Ok(Prefix {
        word: a,
        bits: first.bits,
    }
    .relation_to(Prefix {
        word: b,
        bits: second.bits,
    }))
}

// For all widths and any number of bits: labels are the lists of levels that have a level and no empty one; two words are equal exactly for equal labels; a word is a lawful label's or
// reading it stops at one fault, and reading as it is computed tells which; a label leads another exactly where its levels are a proper prefix of the other's; and words as numbers are in the
// order of the lists of levels, a label before all that it leads, and these before its next sibling.
pub fn words_stand() -> bool
    ensures labels { LabelsAreLevels }
    ensures words { (w : ℕ → ℕ → ℕ) (N : ℕ) → OneLabel w N }
    ensures outcomes { (w : ℕ → ℕ → ℕ) (N : ℕ) → OneOutcome w N }
    ensures reading { (w : ℕ → ℕ → ℕ) (N : ℕ) → ReadingIs w N }
    ensures leads { (w : ℕ → ℕ → ℕ) (N : ℕ) → LeadsByLevels w N }
    ensures order { (w : ℕ → ℕ → ℕ) (N : ℕ) → WordsInOrder w N }
    ensures between { (w : ℕ → ℕ → ℕ) (N : ℕ) → LedBetween w N }
{
    true
}
