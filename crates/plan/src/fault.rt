// Why a plan turns a list of widths down.
ghost use Rattle.std.specs.Prelude.{◌≡◌, Some};
ghost use Rattle.plan.specs.Fault.{number_of, name_of, written};

use std::fmt;

#[derive(Clone, Copy, PartialEq, Eq, Debug)]
pub enum PlanFault {
    // The list has no width, over 8, or one outside 1 to 8.
    Unlawful = 24,
}

impl PlanFault {
    // The refusal's number.
    pub fn number(&self) -> u8
        ensures { result ≡ number_of self.now }
    {
        *self as u8
    }

    // The refusal's name.
    pub fn name(&self) -> &'static str
        ensures { result.now ≡ name_of self.now }
    {
        match self {
            PlanFault::Unlawful => "PLAN",
        }
    }
}

// Shown as the number and the name: `24 PLAN`.
impl fmt::Display for PlanFault {
    ghost output = { λ fault. Some (written fault) };

    fn fmt<W: fmt::Write>(&self, f: &mut fmt::Formatter<W>) -> fmt::Result {
        write!(f, "{} {}", self.number(), self.name())
    }
}
