// The commands of a script.
ghost use Rattle.std.specs.Prelude.{◌≡◌, List, [], ◌∷◌, MatchResult};
ghost use Rattle.kushrebat.specs.Grammar.{left, Takes, SpellsWord, SpellsBound, SpellsKind, SpellsWidth, SpellsWidths, SpellsBehind, Part, a_word, a_bound, Misread, MisreadWidths, MisreadPlan, MisreadBehind, ReadsName, ReadsKind, Parses};
ghost use Rattle.kushrebat.specs.declared.script.fault.LineFault.TheVariants.{MissingWord, NotANumber};
ghost use Rattle.kushrebat.specs.Numerals.{Number};

use crate::script::fault::LineFault;
use crate::script::line::{Words, without_comment};
use crate::script::number::number;
use crate::script::word::word;
use gap::Bounds;
use label::Word;
use std::alloc::Global;

// What the widths of a plan go by.
#[derive(Clone, Copy)]
pub enum PlanKind {
    Position,
    Level,
}

impl<'a> TryFrom<&'a [u8]> for PlanKind {
    type Error = LineFault;

    ghost try_from_gives = { λ word r. ReadsKind word.now r };

    fn try_from(word: &'a [u8]) -> Result<PlanKind, LineFault> {
        match word {
            b"position" => Ok(PlanKind::Position),
            b"level" => Ok(PlanKind::Level),
            _ => Err(LineFault::UnknownCommand),
        }
    }
}

// A line that can be read.
#[derive(Drop)]
pub enum Command {
    // Chooses another width plan. What stands for the widths need not be any.
    Plan(PlanKind, Vec<u8>),
    // Bit length, level, parent and text of a word's label.
    Ask(Word),
    // How the labels of two words stand to each other.
    Relate(Word, Word),
    // The label for a new child of a word, between bounds.
    Between(Word, Bounds),
    // The rows of the factory's sheet.
    Factory,
}

// The first word of a command.
#[derive(Clone, Copy)]
pub enum Name {
    Plan,
    Ask,
    Relate,
    Between,
    Factory,
}

impl<'a> TryFrom<&'a [u8]> for Name {
    type Error = LineFault;

    ghost try_from_gives = { λ word r. ReadsName word.now r };

    fn try_from(word: &'a [u8]) -> Result<Name, LineFault> {
        match word {
            b"plan" => Ok(Name::Plan),
            b"ask" => Ok(Name::Ask),
            b"relate" => Ok(Name::Relate),
            b"between" => Ok(Name::Between),
            b"factory" => Ok(Name::Factory),
            _ => Err(LineFault::UnknownCommand),
        }
    }
}

// What the words of a line have to be, from left to right.
impl<'a> Words<'a> {
    // The next word, which must be there.
    fn need(&mut self) -> Result<&'a [u8], LineFault>
        ensures { MatchResult result (λ word. left self.old ≡ word.now ∷ left self.new) (λ fault. (left self.old ≡ []) × (fault ≡ MissingWord)) }
    {
        self.next().ok_or(LineFault::MissingWord)
    }

    // There must be no further word.
    fn end(&mut self) -> Result<(), LineFault>
        ensures { MatchResult result (λ _. left self.old ≡ []) (Misread [] (left self.old)) }
    {
        match self.next() {
            Some(_) => Err(LineFault::ExtraWord),
            None => Ok(()),
        }
    }

    fn label_word(&mut self) -> Result<Word, LineFault>
        ensures { MatchResult result (λ x. Takes SpellsWord (left self.old) x (left self.new)) (λ fault. (ps : List Part) → Misread (a_word ∷ ps) (left self.old) fault) }
    {
        word(self.need()?).ok_or(LineFault::NotALabelWord)
    }

    // A bound is a label word, or `none`.
    fn bound(&mut self) -> Result<Option<Word>, LineFault>
        ensures { MatchResult result (λ b. Takes SpellsBound (left self.old) b (left self.new)) (λ fault. (ps : List Part) → Misread (a_bound ∷ ps) (left self.old) fault) }
    {
        match self.need()? {
            b"none" => Ok(None),
            digits => word(digits).map(Some).ok_or(LineFault::NotALabelWord),
        }
    }

    fn plan_kind(&mut self) -> Result<PlanKind, LineFault>
        ensures { MatchResult result (λ kind. Takes SpellsKind (left self.old) kind (left self.new)) (MisreadPlan (left self.old)) }
    {
        PlanKind::try_from(self.need()?)
    }

    // All further words, as widths.
    fn widths(self, heap: Global) -> Result<Vec<u8>, LineFault>
        ensures { MatchResult result (λ all. SpellsWidths (left self.entry) all.items) (MisreadWidths (left self.entry)) }
    {
        self.map(width).try_collect(heap)
    }
}

// A number as a width. One that no byte holds becomes 255, which is no width either.
fn width(digits: &[u8]) -> Result<u8, LineFault>
    ensures { MatchResult result (SpellsWidth digits.now) (λ fault. (Number digits.now → ⊥) × (fault ≡ NotANumber)) }
{
    let number = number(digits).ok_or(LineFault::NotANumber)?;
    Ok(u8::try_from(number).unwrap_or(u8::MAX))
}

fn plan(heap: Global, mut words: Words) -> Result<Command, LineFault>
    ensures { MatchResult result (SpellsBehind Name.Plan (left words.entry)) (MisreadPlan (left words.entry)) }
{
    let kind = words.plan_kind()?;
    let widths = words.widths(heap)?;
    Ok(Command::Plan(kind, widths))
}

fn ask(mut words: Words) -> Result<Command, LineFault>
    ensures { MatchResult result (SpellsBehind Name.Ask (left words.entry)) (MisreadBehind Name.Ask (left words.entry)) }
{
    let asked = words.label_word()?;
    words.end()?;
    Ok(Command::Ask(asked))
}

fn relate(mut words: Words) -> Result<Command, LineFault>
    ensures { MatchResult result (SpellsBehind Name.Relate (left words.entry)) (MisreadBehind Name.Relate (left words.entry)) }
{
    let first = words.label_word()?;
    let second = words.label_word()?;
    words.end()?;
    Ok(Command::Relate(first, second))
}

fn between(mut words: Words) -> Result<Command, LineFault>
    ensures { MatchResult result (SpellsBehind Name.Between (left words.entry)) (MisreadBehind Name.Between (left words.entry)) }
{
    let parent = words.label_word()?;
    let lower = words.bound()?;
    let upper = words.bound()?;
    words.end()?;
    Ok(Command::Between(parent, Bounds { lower, upper }))
}

fn factory(mut words: Words) -> Result<Command, LineFault>
    ensures { MatchResult result (SpellsBehind Name.Factory (left words.entry)) (MisreadBehind Name.Factory (left words.entry)) }
{
    words.end()?;
    Ok(Command::Factory)
}

// The command of this name with the words behind it.
fn parse_behind(heap: Global, name: Name, words: Words) -> Result<Command, LineFault>
    ensures { MatchResult result (SpellsBehind name (left words.entry)) (MisreadBehind name (left words.entry)) }
{
    match name {
        Name::Plan => plan(heap, words),
        Name::Ask => ask(words),
        Name::Relate => relate(words),
        Name::Between => between(words),
        Name::Factory => factory(words),
    }
}

impl Command {
    // The command that a line holds, or none where it has no word. Words are read from left to right, and the first that cannot be read decides.
    pub(crate) fn parse(heap: Global, line: &[u8]) -> Result<Option<Command>, LineFault>
        ensures { Parses line.now result }
    {
        let mut words = Words::of(without_comment(line));
        let Some(word) = words.next() else {
            return Ok(None);
        };
        let name = Name::try_from(word)?;
        Ok(Some(parse_behind(heap, name, words)?))
    }
}
