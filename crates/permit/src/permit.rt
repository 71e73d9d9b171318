// The permit.
ghost use Rattle.std.specs.Prelude.{◌≡◌, Bool};

use std::marker::Model;

// A permit reads on or off. A firing may start only while it reads on.
#[derive(Drop)]
pub struct Permit {
    pub(crate) on: bool,
}

// A permit is what it reads.
impl Model for Permit {
    ghost Value = { Bool };

    ghost view = { λ permit. permit.on };
}

impl Permit {
    // A permit that reads on or off.
    pub fn new(on: bool) -> Permit
        ensures { result ≡ on }
    {
        Permit { on }
    }

    // Whether it reads on.
    pub fn is_on(&self) -> bool
        ensures { result ≡ self.now }
    {
        self.on
    }

    // Switches it on or off.
    pub fn switch(&mut self, on: bool)
        ensures { self.new ≡ on }
    {
        self.on = on;
    }
}
