// Where a subvalue stands in a label.
ghost use Rattle.std.specs.Prelude.{◌≡◌, ◌+◌, ◌-◌, ◌<◌, ◌≤◌};
ghost use Rattle.label.specs.Label.{word_bits, stands_at};
ghost use Rattle.label.specs.Spelling.{level_after, position_after};

use crate::subvalue::Subvalue;
use crate::word::WORD_BITS;
use plan::WidthPlan;

// A subvalue's place: how many bits of the word are left from its first bit on, its level (from 1), and its position in the level (from 0).
#[derive(Clone, Copy)]
pub struct Spot {
    pub left: u32,
    pub level: usize,
    pub position: usize,
    ghost within: { left ≤ word_bits },
    ghost levels: { level + left ≤ word_bits + 1 },
    ghost positions: { position + left ≤ word_bits },
}

impl Spot {
    // The spot of a word's first subvalue.
    pub(crate) fn start() -> Spot
        ensures { (result.left ≡ word_bits) × (result.level ≡ 1) × (result.position ≡ 0) }
    {
        Spot {
            left: WORD_BITS,
            level: 1,
            position: 0,
        }
    }

    // The subvalue's first bit, counted from 0 at the left.
    pub(crate) fn bit(self) -> u32
        ensures { result ≡ word_bits - self.left }
    {
        WORD_BITS - self.left
    }

    // The subvalue's width under a plan.
    pub(crate) fn width<P: WidthPlan>(self, plan: &P) -> u32
        ensures is { result ≡ P.width plan.now self.level self.position }
        ensures low { 1 ≤ result }
        ensures high { result ≤ 8 }
    {
        plan.width(self.level, self.position)
    }

    // Whether a subvalue may stand here: one that ends its level must be at least 1.
    pub(crate) fn takes(self, subvalue: Subvalue) -> bool
        ensures { result ≡ stands_at self.position subvalue.value subvalue.ends_level }
    {
        !subvalue.ends_level || subvalue.value > 0
    }

    // The spot behind a subvalue of `width` bits and its separator.
    pub(crate) fn behind(self, width: u32, ends_level: bool) -> Spot
        requires { width < self.left }
        ensures left { result.left ≡ self.left - width - 1 }
        ensures level { result.level ≡ level_after ends_level self.level }
        ensures position { result.position ≡ position_after ends_level self.position }
    {
        let left = self.left - width - 1;
        if ends_level {
            Spot {
                left,
                level: self.level + 1,
                position: 0,
            }
        } else {
            Spot {
                left,
                level: self.level,
                position: self.position + 1,
            }
        }
    }
}
