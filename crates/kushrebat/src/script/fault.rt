// Why a line of a script cannot be read.
ghost use Rattle.std.specs.Prelude.{◌≡◌, Some};
ghost use Rattle.kushrebat.specs.Reasons.{reason_of};
ghost use Rattle.kushrebat.specs.declared.script.fault.LineFault.TheVariants.{OutOfMemory};

use std::alloc::AllocError;
use std::fmt;

#[derive(Clone, Copy, PartialEq, Eq, Debug)]
pub enum LineFault {
    UnknownCommand,
    MissingWord,
    ExtraWord,
    NotANumber,
    NotALabelWord,
    OutOfMemory,
}

// Kept: by hand, which is the form for a conversion whose clause says what it makes: of thiserror's `#[from]` nothing is promised, and a line that is turned down where memory is out is told so by this clause.
impl From<AllocError> for LineFault {
    ghost from_gives = { λ _ r. r ≡ OutOfMemory };

    fn from(_e: AllocError) -> LineFault {
        LineFault::OutOfMemory
    }
}

impl fmt::Display for LineFault {
    ghost output = { λ fault. Some (reason_of fault) };

    fn fmt<W: fmt::Write>(&self, f: &mut fmt::Formatter<W>) -> fmt::Result {
        f.write_str(match self {
            LineFault::UnknownCommand => "unknown command",
            LineFault::MissingWord => "missing word",
            LineFault::ExtraWord => "extra word",
            LineFault::NotANumber => "not a number",
            LineFault::NotALabelWord => "not a label word",
            LineFault::OutOfMemory => "out of memory",
        })
    }
}
