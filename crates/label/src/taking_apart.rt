// Words of labels: taking them apart into subvalues.
ghost use Rattle.std.specs.Prelude.{◌≡◌};
ghost use Rattle.label.specs.Label.{Label, word_bits};
ghost use Rattle.label.specs.Listed.{listed, TakesApart};
ghost use Rattle.label.specs.Spelling.{spelling};
ghost use Rattle.label.specs.Theorems.{Of};

use crate::cursor::Cursor;
use crate::fault::LabelFault;
use crate::reading::read;
use crate::spelling::Spelling;
use crate::word::Word;
use plan::WidthPlan;

// The subvalues of the lawful label whose word it is.
fn subvalues<P: WidthPlan>(plan: &P, word: Word) -> Spelling
    requires { (c : Label) × Of (P.width plan.now) word_bits c word }
    ensures { (c : Label) → Of (P.width plan.now) word_bits c word → listed result ≡ spelling c }
{
    let mut spelling = Spelling::empty();
    let mut cursor = Cursor::start(word);
    'pieces: loop {
        let width = cursor.spot.width(plan);
        let Some(piece) = cursor.piece(width) else {
            return spelling;
        };
        spelling.push(piece.subvalue);
        let Some(rest) = piece.behind else {
            return spelling;
        };
        cursor = cursor.behind(width, piece.subvalue.ends_level, rest);
    }
}

// The subvalues of a word's label, or the fault at which reading it stops.
pub fn take_apart<P: WidthPlan>(plan: &P, word: Word) -> Result<Spelling, LabelFault>
    ensures { TakesApart (P.width plan.now) word_bits word result }
{
    read(plan, word)?;
    Ok(subvalues(plan, word))
}
