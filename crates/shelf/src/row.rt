// Rows: what a shelf is a list of.
ghost use Rattle.std.specs.Prelude.{◌≡◌, Some};
ghost use Rattle.shelf.specs.Rows.{restated};
ghost use Rattle.shelf.specs.States.{text_of};

use label::Word;
use std::fmt;

// How it stands with a place.
#[derive(Clone, Copy, PartialEq, Eq, Debug)]
pub enum State {
    // The place is taken, and its card is still to come.
    Opened,
    // The place has a card.
    Filled,
    // The place is out of use. Its row stays, so that its label is not given a second time.
    Struck,
}

// Shown as one word.
impl fmt::Display for State {
    ghost output = { λ state. Some (text_of state) };

    fn fmt<W: fmt::Write>(&self, f: &mut fmt::Formatter<W>) -> fmt::Result {
        f.write_str(match self {
            State::Opened => "opened",
            State::Filled => "filled",
            State::Struck => "struck",
        })
    }
}

// One place: its label's word, by which rows are ordered and found, how it stands with it, and the word of its card, 0 where it has none.
// A shelf reads neither the state nor the card; it only keeps them.
#[derive(Clone, Copy, PartialEq, Eq, Debug)]
pub struct Row {
    pub label: Word,
    pub state: State,
    pub card: u64,
}

impl Row {
    // A row to fill memory with before it is handed in.
    pub const BLANK: Row = Row {
        label: 0,
        state: State::Opened,
        card: 0,
    };

    // The row with another state and card word, and the same label.
    pub fn restated(self, state: State, card: u64) -> Row
        ensures { result ≡ restated self state card }
    {
        Row {
            state,
            card,
            ..self
        }
    }
}
