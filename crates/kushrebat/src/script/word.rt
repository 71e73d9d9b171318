// Label words in a script.
ghost use Rattle.std.specs.Option.{SomeIff};
ghost use Rattle.kushrebat.specs.Numerals.{LabelWord, hexadecimal};

use crate::script::digits::value;
use label::Word;

// How many hexadecimal digits a label word has.
const DIGITS: usize = 16;

// The value of sixteen hexadecimal digits, of either case.
pub(crate) fn word(digits: &[u8]) -> Option<Word>
    ensures { SomeIff result (LabelWord digits.now) (hexadecimal digits.now) }
{
    if digits.len() == DIGITS {
        value::<16>(digits)
    } else {
        None
    }
}
