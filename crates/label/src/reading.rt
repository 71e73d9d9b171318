// Words of labels: reading them.
ghost use Rattle.std.specs.Prelude.{◌≡◌, ◌≤◌, IfOk};
ghost use Rattle.label.specs.Label.{word_bits};
ghost use Rattle.label.specs.Reading.{label_of, answer};
ghost use Rattle.label.specs.Theorems.{Reads};

use crate::cursor::Cursor;
use crate::fault::LabelFault;
use crate::prefix::Prefix;
use crate::word::Word;
use plan::WidthPlan;

// What reading a word tells of its label: its bit length, its level (the number of its levels), and its parent's word, or none at level 1.
#[derive(Clone, Copy, PartialEq, Eq, Debug)]
pub struct WordReading {
    pub bits: u32,
    pub level: usize,
    pub parent: Option<Word>,
}

// Reads a word piece by piece, from bit 0 on.
fn read_pieces<P: WidthPlan>(plan: &P, word: Word) -> Result<WordReading, LabelFault>
    ensures { result ≡ answer (P.width plan.now) word_bits (label_of (P.width plan.now) word_bits word) }
{
    let mut cursor = Cursor::start(word);
    let mut parent = None;
    'pieces: loop {
        let spot = cursor.spot;
        let width = spot.width(plan);
        let piece = cursor.piece(width).ok_or(LabelFault::Short(spot.bit()))?;
        // Only a subvalue that ends its level is asked, and the parent is set before the cursor moves on: so the compiler makes one branch for a piece.
        // In another order it computes both ways of each piece and then chooses, which takes almost a fifth more instructions.
        if piece.subvalue.ends_level && !spot.takes(piece.subvalue) {
            return Err(LabelFault::Zero(spot.bit()));
        }
        let bits = spot.bit() + width;
        let Some(rest) = piece.behind else {
            return Ok(WordReading {
                bits,
                level: spot.level,
                parent,
            });
        };
        if piece.subvalue.ends_level {
            parent = Some(Prefix { word, bits }.padded());
        }
        cursor = cursor.behind(width, piece.subvalue.ends_level, rest);
    }
}

// Reads a word under a plan: what its label has, or the fault at which reading stops.
// Kept: a plan and a word are no type of their own, since one plan is asked of many words, and `read(&PlannedWord { plan, word })` is longer than `read(plan, word)`.
pub fn read<P: WidthPlan>(plan: &P, word: Word) -> Result<WordReading, LabelFault>
    ensures reads { Reads (P.width plan.now) word_bits word result }
    ensures sized { IfOk result (λ reading. (1 ≤ reading.bits) × (reading.bits ≤ word_bits)) }
{
    read_pieces(plan, word)
}
