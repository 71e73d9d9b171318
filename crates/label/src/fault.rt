// Why a word is no label's.
ghost use Rattle.std.specs.Prelude.{◌≡◌, Some};
ghost use Rattle.label.specs.Fault.{number_of, name_of, bit_of, text_of};

use std::fmt;

// The fault at which the reading of a word stops, with the first bit of the subvalue that it stops at.
#[derive(Clone, Copy, PartialEq, Eq, Debug)]
pub enum LabelFault {
    // Fewer bits remain than the subvalue needs.
    Short(u32),
    // A subvalue of 0 ends its level.
    Zero(u32),
}

impl LabelFault {
    // The refusal's number.
    pub fn number(&self) -> u8
        ensures { result ≡ number_of self.now }
    {
        match self {
            LabelFault::Short(_) => 1,
            LabelFault::Zero(_) => 2,
        }
    }

    // The refusal's name.
    pub fn name(&self) -> &'static str
        ensures { result.now ≡ name_of self.now }
    {
        match self {
            LabelFault::Short(_) => "SHORT",
            LabelFault::Zero(_) => "ZERO",
        }
    }

    // The first bit of the subvalue, counted from 0 at the left.
    pub fn bit(&self) -> u32
        ensures { result ≡ bit_of self.now }
    {
        match self {
            LabelFault::Short(bit) | LabelFault::Zero(bit) => *bit,
        }
    }
}

// Shown by its number, its name and the bit: `1 SHORT bit 3`.
impl fmt::Display for LabelFault {
    ghost output = { λ fault. Some (text_of fault) };

    fn fmt<W: fmt::Write>(&self, f: &mut fmt::Formatter<W>) -> fmt::Result {
        write!(f, "{} {} bit {}", self.number(), self.name(), self.bit())
    }
}
