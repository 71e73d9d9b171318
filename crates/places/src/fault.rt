// Why a call on a sheet is turned down.
ghost use Rattle.std.specs.Prelude.{◌≡◌};
ghost use Rattle.places.specs.Fault.{number_of, name_of};
ghost use Rattle.places.specs.declared.fault.SheetFault.TheVariants as faults;

use card::fault::CardFault;
use shelf::ShelfFault;

#[derive(Clone, Copy, PartialEq, Eq, Debug)]
pub enum SheetFault {
    // The sheet is not laid.
    Unlaid,
    // The sheet is laid, or its shelf has rows.
    Laid,
    // No row has the label, or the word is no label's.
    Unknown,
    // Nothing comes before or after the head, and the head is not struck.
    Head,
    // The new place's parent, or the place to strike, is not filled.
    Unfilled,
    // A filled or opened place stands below.
    NotBare,
    // No label is left for the new place.
    NoPlace,
    // No opened row has the note's label.
    NotOpen,
    // A sheet that rests, fires or is paused does not allow the call.
    Turn,
    // The permit reads off.
    Permit,
    // The shelf turned a row down.
    Shelf(ShelfFault),
    // The word in a row makes no card.
    Card(CardFault),
}

impl SheetFault {
    // The refusal's number.
    pub fn number(&self) -> u8
        ensures { result ≡ number_of self.now }
    {
        match self {
            SheetFault::Unlaid => 6,
            SheetFault::Laid => 7,
            SheetFault::Unknown => 8,
            SheetFault::Head => 9,
            SheetFault::Unfilled => 10,
            SheetFault::NotBare => 11,
            SheetFault::NoPlace => 12,
            SheetFault::NotOpen => 13,
            SheetFault::Turn => 14,
            SheetFault::Permit => 15,
            SheetFault::Shelf(fault) => fault.number(),
            SheetFault::Card(fault) => fault.number(),
        }
    }

    // The refusal's name.
    pub fn name(&self) -> &'static str
        ensures { result.now ≡ name_of self.now }
    {
        match self {
            SheetFault::Unlaid => "UNLAID",
            SheetFault::Laid => "LAID",
            SheetFault::Unknown => "UNKNOWN",
            SheetFault::Head => "HEAD",
            SheetFault::Unfilled => "UNFILLED",
            SheetFault::NotBare => "NOT BARE",
            SheetFault::NoPlace => "NO PLACE",
            SheetFault::NotOpen => "NOT OPEN",
            SheetFault::Turn => "TURN",
            SheetFault::Permit => "PERMIT",
            SheetFault::Shelf(fault) => fault.name(),
            SheetFault::Card(fault) => fault.name(),
        }
    }
}

// A word that makes no card, met in a row.
// Kept: by hand, which is the form for a conversion whose clause says what it makes: of thiserror's `#[from]` nothing is promised, and the contracts of what `?` turns down rest on these clauses.
impl From<CardFault> for SheetFault {
    ghost from_gives = { λ fault r. r ≡ faults.Card fault };

    fn from(fault: CardFault) -> SheetFault {
        SheetFault::Card(fault)
    }
}

// A row that the shelf turned down.
// Kept: as for a card's fault.
impl From<ShelfFault> for SheetFault {
    ghost from_gives = { λ fault r. r ≡ faults.Shelf fault };

    fn from(fault: ShelfFault) -> SheetFault {
        SheetFault::Shelf(fault)
    }
}
