// Numbers in a script.
ghost use Rattle.std.specs.Option.{SomeIff};
ghost use Rattle.kushrebat.specs.Numerals.{Number, decimal};

use crate::script::digits::value;

// The value of one or more decimal digits, where 64 bits hold it.
pub(crate) fn number(digits: &[u8]) -> Option<u64>
    ensures { SomeIff result (Number digits.now) (decimal digits.now) }
{
    if digits.is_empty() {
        None
    } else {
        value::<10>(digits)
    }
}
