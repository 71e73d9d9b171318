// Why a shelf turns a change down.
ghost use Rattle.std.specs.Prelude.{◌≡◌};
ghost use Rattle.shelf.specs.Fault.{number_of, name_of};

#[derive(Clone, Copy, PartialEq, Eq, Debug)]
pub enum ShelfFault {
    // A row with the label is there already.
    Held = 3,
    // There is no room for another row.
    Full = 4,
    // No row has the index.
    Index = 5,
}

impl ShelfFault {
    // The refusal's number.
    pub fn number(&self) -> u8
        ensures { result ≡ number_of self.now }
    {
        *self as u8
    }

    // The refusal's name.
    pub fn name(&self) -> &'static str
        ensures { result.now ≡ name_of self.now }
    {
        match self {
            ShelfFault::Held => "HELD",
            ShelfFault::Full => "FULL",
            ShelfFault::Index => "INDEX",
        }
    }
}
