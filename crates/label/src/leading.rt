// What a label leads, as a range of words.
ghost use Rattle.std.specs.Prelude.{◌+◌, ◌-◌, ◌^◌, ◌<◌, ◌≤◌};
ghost use Rattle.label.specs.Label.{word_bits};
ghost use Rattle.label.specs.Theorems.{EndsLed};

use crate::fault::LabelFault;
use crate::reading::read;
use crate::word::{WORD_BITS, Word, power};
use plan::WidthPlan;

// The end of the words that a label leads: it leads exactly the lawful labels with a greater word that is below this one. None where it leads nothing, since it has all bits of a word.
pub fn led_end<P: WidthPlan>(plan: &P, word: Word) -> Result<Option<Word>, LabelFault>
    ensures { EndsLed (P.width plan.now) word_bits word result }
{
    let reading = read(plan, word)?;
    Ok(
        (WORD_BITS - 1)
            .checked_sub(reading.bits)
            .map(|behind| word + power(behind)),
    )
}
