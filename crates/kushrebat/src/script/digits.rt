// Digits of a base.
ghost use Rattle.std.specs.Prelude.{◌≤◌};
ghost use Rattle.std.specs.Option.{SomeIff};
ghost use Rattle.std.specs.Str.Parse.{digits_value};
ghost use Rattle.kushrebat.specs.Numerals.{Held};

// The value of digits of a base, where each is one and 64 bits hold the value. Zeros in front do not count, however many there are.
pub(crate) fn value<const BASE: u32>(digits: &[u8]) -> Option<u64>
    requires { (2 ≤ BASE) × (BASE ≤ 36) }
    ensures { SomeIff result (Held BASE digits.now) (digits_value BASE digits.now) }
{
    let mut value: u64 = 0;
    for c in digits {
        let digit = char::from(*c).to_digit(BASE)?;
        value = value
            .checked_mul(u64::from(BASE))?
            .checked_add(u64::from(digit))?;
    }
    Some(value)
}
