// The text of menu cards.
ghost use Rattle.card.specs.Menu.{written};
ghost use Rattle.std.specs.Prelude.{Some};

use super::MenuCard;
use std::fmt;

// Shown as a word and its numbers: `menu 10 4 7`.
impl fmt::Display for MenuCard {
    ghost output = { λ c. Some (written c) };

    fn fmt<W: fmt::Write>(&self, f: &mut fmt::Formatter<W>) -> fmt::Result {
        write!(f, "menu {} {} {}", self.start, self.length, self.action)
    }
}
