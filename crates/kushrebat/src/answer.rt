// What the program answers.
ghost use Rattle.std.specs.Prelude.{◌≡◌, Some};
ghost use Rattle.kushrebat.specs.Refusals.{number_of, name_of, written};
ghost use Rattle.kushrebat.specs.declared.answer.Refusal.TheVariants as refusals;

use crate::rows::Listing;
use crate::script::fault::LineFault;
use card::firing::FiringCard;
use factory::FactoryShelf;
use label::{LabelFault, Relation, Spelling, Word, WordReading};
use plan::{PlanFault, PositionPlan};
use std::fmt;

// Why a call is turned down.
#[derive(Clone, Copy)]
pub enum Refusal {
    Plan(PlanFault),
    Label(LabelFault),
    // There is no label between.
    NoPlace,
}

impl Refusal {
    // The refusal's number.
    pub fn number(&self) -> u8
        ensures { result ≡ number_of self.now }
    {
        match self {
            Refusal::Plan(fault) => fault.number(),
            Refusal::Label(fault) => fault.number(),
            Refusal::NoPlace => 12,
        }
    }

    // The refusal's name.
    pub fn name(&self) -> &'static str
        ensures { result.now ≡ name_of self.now }
    {
        match self {
            Refusal::Plan(fault) => fault.name(),
            Refusal::Label(fault) => fault.name(),
            Refusal::NoPlace => "NO PLACE",
        }
    }
}

// Kept: by hand, which is the form for a conversion whose clause says what it makes: of thiserror's `#[from]` nothing is promised, and the contracts of what `?` turns down rest on these clauses.
impl From<PlanFault> for Refusal {
    ghost from_gives = { λ fault r. r ≡ refusals.Plan fault };

    fn from(fault: PlanFault) -> Refusal {
        Refusal::Plan(fault)
    }
}

// Kept: as for a plan's fault.
impl From<LabelFault> for Refusal {
    ghost from_gives = { λ fault r. r ≡ refusals.Label fault };

    fn from(fault: LabelFault) -> Refusal {
        Refusal::Label(fault)
    }
}

// The refusal's number and name, and the values that it carries.
impl fmt::Display for Refusal {
    ghost output = { λ refusal. Some (written refusal) };

    fn fmt<W: fmt::Write>(&self, f: &mut fmt::Formatter<W>) -> fmt::Result {
        match self {
            Refusal::Plan(fault) => write!(f, "{fault}"),
            Refusal::Label(fault) => write!(f, "{fault}"),
            Refusal::NoPlace => write!(f, "{} {}", self.number(), self.name()),
        }
    }
}

// The answer to one line.
#[derive(Clone, Copy)]
pub enum Answer {
    // There is nothing to tell.
    Done,
    // What a word's label has, and the label as text.
    Read(WordReading, Spelling),
    // How two labels stand to each other.
    Stands(Relation),
    // A label that was looked for: its word and its text.
    Found(Word, Spelling),
    // The rows of the factory's sheet.
    FactoryRows,
    // The call is turned down.
    Refused(Refusal),
    // The line cannot be read.
    Unreadable(LineFault),
}

// A word is printed as sixteen capital hexadecimal digits.
impl fmt::Display for Answer {
    fn fmt<W: fmt::Write>(&self, f: &mut fmt::Formatter<W>) -> fmt::Result {
        match self {
            Answer::Done => f.write_str("ok"),
            Answer::Read(reading, text) => {
                write!(f, "bits {} level {} parent ", reading.bits, reading.level)?;
                match reading.parent {
                    Some(parent) => write!(f, "{parent:016X}")?,
                    None => f.write_str("none")?,
                }
                write!(f, " text {text}")
            }
            Answer::Stands(relation) => write!(f, "{relation}"),
            Answer::Found(word, text) => write!(f, "label {word:016X} {text}"),
            Answer::FactoryRows => {
                let shelf = FactoryShelf::new();
                let plan = PositionPlan::plan4();
                write!(f, "{}", Listing::<_, _, FiringCard>::of(&shelf, &plan))
            }
            Answer::Refused(refusal) => write!(f, "no {refusal}"),
            Answer::Unreadable(fault) => write!(f, "error {fault}"),
        }
    }
}
