// Why a card is refused.
ghost use Rattle.std.specs.Prelude.{◌≡◌};
ghost use Rattle.card.specs.Fault.{fault_name, fault_number};

// The one refusal of this crate: a word, or the numbers that were given, make no card.
#[derive(Clone, Copy, PartialEq, Eq, Debug)]
pub enum CardFault {
    NoCard = 21,
}

impl CardFault {
    // The number by which the refusal is known outside: 21.
    pub fn number(&self) -> u8
        ensures { result ≡ fault_number self.now }
    {
        *self as u8
    }

    // The name that is printed beside the number: CARD.
    pub fn name(&self) -> &'static str
        ensures { result.now ≡ fault_name self.now }
    {
        match self {
            CardFault::NoCard => "CARD",
        }
    }
}
