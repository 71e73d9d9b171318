// Making a menu card from numbers, and reading its numbers.
ghost use Rattle.std.specs.Prelude.{◌≡◌};
ghost use Rattle.card.specs.Menu.{Lawful, code, menu_of, packed};
ghost use Rattle.card.specs.Reading.{Reads};
ghost use Rattle.card.specs.declared.fault.CardFault.TheVariants.{NoCard};
ghost use Rattle.std.specs.Option.{ok_or};

use super::{Action, Length, MenuCard};
use crate::fault::CardFault;

// The most that a caption's start and length may be together.
const LAST_END: u16 = 65_535;

impl MenuCard {
    // `made` says which card comes of which numbers, and `lawful` says it by ranges: a card comes exactly when the
    // numbers are lawful, and it is the card with the word that they make.
    //
    // The entry with a caption of length 1 to 24, where start and length are at most 65535 together, and an action of 0 to 999.
    pub fn new(start: u64, length: u64, action: u64) -> Result<MenuCard, CardFault>
        ensures made { result ≡ ok_or (menu_of start length action) NoCard }
        ensures lawful { Reads code (Lawful start length action) (packed start length action) result }
    {
        let length = Length::new(length)?;
        let action = Action::new(action)?;
        match u16::try_from(start) {
            Ok(start) if start <= LAST_END - length.get() => Ok(MenuCard {
                start,
                length,
                action,
            }),
            _ => Err(CardFault::NoCard),
        }
    }

    // Where the caption starts.
    pub fn start(self) -> u16
        ensures { result ≡ self.start }
    {
        self.start
    }

    // How long the caption is.
    pub fn length(self) -> u16
        ensures { result ≡ self.length.value }
    {
        self.length.get()
    }

    // What the entry does.
    pub fn action(self) -> u16
        ensures { result ≡ self.action.value }
    {
        self.action.get()
    }
}
