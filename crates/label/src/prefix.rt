// The bits of a label in its word.
ghost use Rattle.std.specs.Prelude.{◌≡◌, ◌-◌, ◌*◌, ◌/◌, ◌^◌, ◌≤◌};
ghost use Rattle.label.specs.Label.{word_bits};

use crate::relation::Relation;
use crate::word::{WORD_BITS, Word};
use std::cmp::Ordering;

// The first `bits` bits of a word.
#[derive(Clone, Copy)]
pub struct Prefix {
    pub word: Word,
    pub bits: u32,
    ghost some: { 1 ≤ bits },
    ghost within: { bits ≤ word_bits },
}

impl Prefix {
    ghost use Rattle.label.specs.Relation.{leads, relation_of};

    // The word that has these bits, with zeros behind them.
    pub(crate) fn padded(self) -> Word
        ensures { result ≡ self.word / 2 ^ (word_bits - self.bits) * 2 ^ (word_bits - self.bits) }
    {
        let behind = WORD_BITS - self.bits;
        self.word >> behind << behind
    }

    // Whether the label of these bits leads the other's: the other has more bits, begins with these, and its next bit is 0.
    fn leads(self, other: Prefix) -> bool
        ensures { result ≡ leads word_bits self.bits other.bits self.word other.word }
    {
        self.bits < other.bits
            && other.word >> (WORD_BITS - self.bits) == self.word >> (WORD_BITS - self.bits)
            && (other.word >> (WORD_BITS - 1 - self.bits)) % 2 == 0
    }

    // How the label of these bits stands to the other's.
    pub(crate) fn relation_to(self, other: Prefix) -> Relation
        ensures { result ≡ relation_of word_bits self.bits other.bits self.word other.word }
    {
        match self.word.cmp(&other.word) {
            Ordering::Equal => Relation::Same,
            _ if self.leads(other) => Relation::Above,
            _ if other.leads(self) => Relation::Below,
            Ordering::Less => Relation::Before,
            Ordering::Greater => Relation::After,
        }
    }
}
