// Making a bounded number, and reading it.
ghost use Rattle.std.specs.Prelude.{◌≡◌, Some, decimal, MatchResult};
ghost use Rattle.card.specs.Bounds.{Within, bounded};
ghost use Rattle.card.specs.declared.fault.CardFault.TheVariants.{NoCard};
ghost use Rattle.std.specs.Option.{ok_or};

use super::Bounded;
use crate::fault::CardFault;
use std::fmt;

impl<const LOW: u16, const HIGH: u16> Bounded<LOW, HIGH> {
    // The number, if it lies within the bounds. It is never cut to 16 bits: what is too large is refused.
    pub fn new(number: u64) -> Result<Self, CardFault>
        ensures made { result ≡ ok_or (bounded LOW HIGH number) NoCard }
        ensures exact { MatchResult result (λ b. b.value ≡ number) (λ _. Within LOW HIGH number → ⊥) }
    {
        match u16::try_from(number) {
            Ok(value) if (LOW..=HIGH).contains(&value) => Ok(Bounded { value }),
            _ => Err(CardFault::NoCard),
        }
    }

    // The number itself.
    pub fn get(self) -> u16
        ensures { result ≡ self.entry.value }
    {
        self.value
    }
}

// Shown as the number in decimal.
impl<const LOW: u16, const HIGH: u16> fmt::Display for Bounded<LOW, HIGH> {
    ghost output = { λ b. Some (decimal b.value) };

    fn fmt<W: fmt::Write>(&self, f: &mut fmt::Formatter<W>) -> fmt::Result {
        write!(f, "{}", self.value)
    }
}
