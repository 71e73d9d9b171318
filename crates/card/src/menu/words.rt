// The words of menu cards.
ghost use Rattle.std.specs.Prelude.{◌≡◌};
ghost use Rattle.card.specs.Menu.{LawfulWord, code, decode};
ghost use Rattle.card.specs.Reading.{Reads};
ghost use Rattle.card.specs.declared.fault.CardFault.TheVariants.{NoCard};
ghost use Rattle.std.specs.Option.{ok_or};
ghost use Rattle.card.specs.MenuWords;
ghost use Rattle.std.proofs.Common.{rules};

use super::MenuCard;
use crate::fault::CardFault;
use crate::kind::Card;

// The word is start × 2^32 + length × 2^16 + action. It is never 0, since the length is at least 1.
// The length and the action are read from 16 bits each, and the start from all that is above them, so that a word with a
// bit above the start's 16 makes no card.
// A word makes a card exactly when it is lawful: the word of three numbers that `MenuCard::new` accepts.
impl Card for MenuCard {
    ghost code = { code };

    ghost decode = { decode };

    ghost nonzero = { Prim.search rules };

    ghost fits = { Prim.search rules };

    ghost round = { MenuWords.round };

    ghost own = { MenuWords.own };

    fn word(self) -> u64 {
        u64::from(self.start) * 0x1_0000_0000
            + u64::from(self.length.get()) * 0x1_0000
            + u64::from(self.action.get())
    }

    #[tactic(auto, using(crate::specs::MenuWords::reads_lawful))]
    fn from_word(word: u64) -> Result<MenuCard, CardFault>
        ensures made { result ≡ ok_or (decode word) NoCard }
        ensures lawful { Reads code (LawfulWord word) word result }
    {
        let start = word / 0x1_0000_0000;
        let length = word / 0x1_0000 % 0x1_0000;
        let action = word % 0x1_0000;
        MenuCard::new(start, length, action)
    }
}
