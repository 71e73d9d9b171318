// How far the reading of a word has come.
ghost use Rattle.std.specs.Prelude.{◌≡◌, ◌-◌, ◌^◌, ◌<◌, ◌≤◌};
ghost use Rattle.label.specs.Label.{word_bits};
ghost use Rattle.label.specs.Reading.{piece};
ghost use Rattle.label.specs.Spelling.{level_after, position_after};

use crate::piece::Piece;
use crate::spot::Spot;
use crate::subvalue::Subvalue;
use crate::word::{Word, power};

// What is left to read: the bits from the subvalue at a spot on, by their value.
#[derive(Clone, Copy)]
pub struct Cursor {
    pub spot: Spot,
    pub rest: Word,
    ghost small: { rest < 2 ^ spot.left },
}

impl Cursor {
    // All bits of a word.
    pub(crate) fn start(word: Word) -> Cursor
        ensures left { result.spot.left ≡ word_bits }
        ensures place { (result.spot.level ≡ 1) × (result.spot.position ≡ 0) }
        ensures rest { result.rest ≡ word }
    {
        Cursor {
            spot: Spot::start(),
            rest: word,
        }
    }

    // The first piece, with a subvalue of `width` bits. None where fewer bits are left.
    pub(crate) fn piece(self, width: u32) -> Option<Piece>
        requires { (1 ≤ width) × (width ≤ 8) }
        ensures { result ≡ piece width self.spot.left self.rest }
    {
        // A test and no `checked_sub`, which costs a tenth of a whole reading.
        if self.spot.left < width {
            return None;
        }
        let behind_bits = self.spot.left - width;
        let value = (self.rest >> behind_bits) as u8;
        let rest = self.rest % power(behind_bits);
        let (ends_level, behind) = if rest == 0 {
            (true, None)
        } else {
            let one = power(behind_bits - 1);
            if rest < one {
                (true, Some(rest))
            } else {
                (false, Some(rest - one))
            }
        };
        Some(Piece {
            subvalue: Subvalue { value, ends_level },
            behind,
        })
    }

    // What is left behind a subvalue of `width` bits and its separator: bits of value `rest`.
    pub(crate) fn behind(self, width: u32, ends_level: bool, rest: Word) -> Cursor
        requires { (width < self.spot.left) × (rest < 2 ^ (self.spot.left - width - 1)) }
        ensures left { result.spot.left ≡ self.spot.left - width - 1 }
        ensures level { result.spot.level ≡ level_after ends_level self.spot.level }
        ensures position { result.spot.position ≡ position_after ends_level self.spot.position }
        ensures rest { result.rest ≡ rest }
    {
        Cursor {
            spot: self.spot.behind(width, ends_level),
            rest,
        }
    }
}
