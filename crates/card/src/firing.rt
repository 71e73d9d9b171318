// Firing cards: the steps of a firing.
ghost use Rattle.std.specs.Prelude.{◌≡◌, Err, IsOkAnd, MatchOption, Some};
ghost use Rattle.card.specs.Bounds.{Within, bounded};
ghost use Rattle.card.specs.Firing.{LawfulWord, code, cool_of, decode, hold_of, packed, ramp_of, written};
ghost use Rattle.card.specs.Reading.{Reads};
ghost use Rattle.card.specs.StepKinds.{number};
ghost use Rattle.card.specs.declared.fault.CardFault.TheVariants.{NoCard};
ghost use Rattle.card.specs.declared.firing.FiringCard.TheVariants.{Section};
ghost use Rattle.std.specs.Option.{ok_or};
ghost use Rattle.card.specs.FiringWords;
ghost use Rattle.std.proofs.Common.{rules};

use crate::bounded::Bounded;
use crate::fault::CardFault;
use crate::kind::Card;
use std::fmt;

mod step_kind;

pub use step_kind::StepKind;

// The temperature in °C that a step heads for or keeps.
pub type Target = Bounded<20, 1200>;

// How fast the temperature changes, in °C per hour.
pub type Rate = Bounded<1, 600>;

// How long a step keeps its temperature, in minutes.
pub type Minutes = Bounded<1, 1440>;

// A step of a firing. Its numbers are within their bounds by their types, so every value is a lawful card.
#[derive(Clone, Copy, PartialEq, Eq, Debug)]
pub enum FiringCard {
    // The head of a part of the firing; it asks nothing of the furnace.
    Section,
    // Heat to the target at the rate.
    Ramp(Target, Rate),
    // Keep the target for so many minutes.
    Hold(Target, Minutes),
    // Cool to the target at the rate.
    Cool(Target, Rate),
}

// The card that `make` makes of a target and a further number, if the target lies in its range.
fn aimed<N: Copy, Make: FnOnce(Target, N) -> FiringCard>(
    make: Make,
    target: u64,
    number: N,
) -> Result<FiringCard, CardFault>
    requires { Make.IsAlwaysCallable make }
    ensures { MatchOption (bounded 20 1200 target) (result ≡ Err NoCard) (λ t. IsOkAnd result (Make.post make t number)) }
{
    Ok(make(Target::new(target)?, number))
}

impl FiringCard {
    // The section card. There is only one, and it has no numbers.
    pub fn section() -> FiringCard
        ensures { result ≡ Section }
    {
        Self::Section
    }

    // `made` says which card comes of which numbers. `lawful` says it by ranges: a card comes exactly when both numbers
    // lie in theirs, and it is the card with the word that the numbers make. So it is for `hold` and `cool`.
    //
    // The ramp to a target of 20 to 1200 °C at a rate of 1 to 600 °C per hour.
    pub fn ramp(target: u64, rate: u64) -> Result<FiringCard, CardFault>
        ensures made { result ≡ ok_or (ramp_of target rate) NoCard }
        ensures lawful { Reads code (Within 20 1200 target × Within 1 600 rate) (packed 2 target rate 0) result }
    {
        aimed(FiringCard::Ramp, target, Rate::new(rate)?)
    }

    // The hold at a target of 20 to 1200 °C for 1 to 1440 minutes.
    pub fn hold(target: u64, minutes: u64) -> Result<FiringCard, CardFault>
        ensures made { result ≡ ok_or (hold_of target minutes) NoCard }
        ensures lawful { Reads code (Within 20 1200 target × Within 1 1440 minutes) (packed 3 target 0 minutes) result }
    {
        aimed(FiringCard::Hold, target, Minutes::new(minutes)?)
    }

    // The cooling to a target of 20 to 1200 °C at a rate of 1 to 600 °C per hour.
    pub fn cool(target: u64, rate: u64) -> Result<FiringCard, CardFault>
        ensures made { result ≡ ok_or (cool_of target rate) NoCard }
        ensures lawful { Reads code (Within 20 1200 target × Within 1 600 rate) (packed 4 target rate 0) result }
    {
        aimed(FiringCard::Cool, target, Rate::new(rate)?)
    }
}

// The word of a kind and three numbers of 16 bits.
fn pack(kind: StepKind, target: u16, rate: u16, minutes: u16) -> u64
    ensures { result ≡ packed (number kind) target rate minutes }
{
    kind as u64 * 0x1_0000_0000_0000
        + u64::from(target) * 0x1_0000_0000
        + u64::from(rate) * 0x1_0000
        + u64::from(minutes)
}

// The word is kind × 2^48 + target × 2^32 + rate × 2^16 + minutes, with 0 for a number that the card has not. So each number
// is read from 16 bits, and the kind from all that is above them.
// A word makes a card exactly when it is lawful: the word of a section, or of a ramp, hold or cooling whose numbers
// lie in their ranges.
impl Card for FiringCard {
    ghost code = { code };

    ghost decode = { decode };

    ghost nonzero = { Prim.search rules };

    ghost fits = { Prim.search rules };

    ghost round = { FiringWords.round };

    ghost own = { FiringWords.own };

    fn word(self) -> u64 {
        match self {
            FiringCard::Section => pack(StepKind::Section, 0, 0, 0),
            FiringCard::Ramp(target, rate) => pack(StepKind::Ramp, target.get(), rate.get(), 0),
            FiringCard::Hold(target, minutes) => pack(
                StepKind::Hold,
                target.get(),
                0,
                minutes.get(),
            ),
            FiringCard::Cool(target, rate) => pack(StepKind::Cool, target.get(), rate.get(), 0),
        }
    }

    #[tactic(auto, using(crate::specs::FiringWords::reads_lawful))]
    fn from_word(word: u64) -> Result<FiringCard, CardFault>
        ensures made { result ≡ ok_or (decode word) NoCard }
        ensures lawful { Reads code (LawfulWord word) word result }
    {
        let kind = StepKind::try_from(word / 0x1_0000_0000_0000)?;
        let target = word / 0x1_0000_0000 % 0x1_0000;
        let rate = word / 0x1_0000 % 0x1_0000;
        let minutes = word % 0x1_0000;
        // A number that has no meaning for the kind must be 0.
        match (kind, target, rate, minutes) {
            (StepKind::Section, 0, 0, 0) => Ok(FiringCard::section()),
            (StepKind::Ramp, target, rate, 0) => FiringCard::ramp(target, rate),
            (StepKind::Hold, target, 0, minutes) => FiringCard::hold(target, minutes),
            (StepKind::Cool, target, rate, 0) => FiringCard::cool(target, rate),
            _ => Err(CardFault::NoCard),
        }
    }
}

// Shown as a word and its numbers: `section`, `ramp 700 300`, `hold 700 60`, `cool 20 150`.
impl fmt::Display for FiringCard {
    ghost output = { λ c. Some (written c) };

    fn fmt<W: fmt::Write>(&self, f: &mut fmt::Formatter<W>) -> fmt::Result {
        match *self {
            FiringCard::Section => write!(f, "section"),
            FiringCard::Ramp(target, rate) => write!(f, "ramp {target} {rate}"),
            FiringCard::Hold(target, minutes) => write!(f, "hold {target} {minutes}"),
            FiringCard::Cool(target, rate) => write!(f, "cool {target} {rate}"),
        }
    }
}
