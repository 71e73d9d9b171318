// The rows of a shelf as text.
use card::kind::Card;
use label::{read, take_apart};
use plan::WidthPlan;
use shelf::{Reading, Row, Rows, State};
use std::fmt;
use std::marker::PhantomData;

// All rows of a shelf, with labels under a plan and cards of the kind `C`.
#[derive(Drop)]
pub(crate) struct Listing<'a, S: Reading, P: WidthPlan, C: Card + fmt::Display> {
    shelf: &'a S,
    plan: &'a P,
    cards: PhantomData<C>,
}

impl<'a, S: Reading, P: WidthPlan, C: Card + fmt::Display> Listing<'a, S, P, C> {
    pub(crate) fn of(shelf: &'a S, plan: &'a P) -> Self {
        Listing {
            shelf,
            plan,
            cards: PhantomData,
        }
    }

    // The line of one row. A word that cannot be read, be it a label's or a card's, stands for itself.
    fn line<W: fmt::Write>(&self, row: Row, f: &mut fmt::Formatter<W>) -> fmt::Result {
        let (Ok(reading), Ok(text)) = (read(self.plan, row.label), take_apart(self.plan, row.label))
        else {
            return write!(f, "{:016X}", row.label);
        };
        for _ in 0..reading.level {
            f.write_str("  ")?;
        }
        write!(f, "{:016X} {} {text}", row.label, row.state)?;
        if row.state != State::Filled {
            return Ok(());
        }
        match C::from_word(row.card) {
            Ok(card) => write!(f, " {card}"),
            Err(_) => write!(f, " {:016X}", row.card),
        }
    }
}

// How many rows there are, and then a line for each, indented by two spaces a level.
impl<'a, S: Reading, P: WidthPlan, C: Card + fmt::Display> fmt::Display for Listing<'a, S, P, C> {
    fn fmt<W: fmt::Write>(&self, f: &mut fmt::Formatter<W>) -> fmt::Result {
        let count = self.shelf.count();
        write!(f, "rows {count}")?;
        for row in Rows::new(self.shelf, 0..count) {
            f.write_str("\n")?;
            self.line(row, f)?;
        }
        Ok(())
    }
}
