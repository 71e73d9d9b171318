// The hold on a permit.
ghost use Rattle.std.specs.Prelude.{false, ◌≡◌};

use crate::permit::Permit;
use std::mem;

// A hold keeps a permit off for as long as it lasts. When it ends, on whatever way out, the permit reads what it read before.
// While it lasts the permit is lent to it, so that nothing can be started on that permit.
pub struct Hold<'a> {
    permit: &'a mut Permit,
    before: bool,
}

impl<'a> Hold<'a> {
    // Takes a hold: it switches the permit off. That the reference is the same lets a caller know what the permit reads once the hold has ended.
    pub fn take(permit: &'a mut Permit) -> Hold<'a>
        ensures before { result.before ≡ permit.old }
        ensures off { result.permit.now ≡ false }
        ensures over { result.permit.ghost_name ≡ permit.entry.ghost_name }
    {
        let before = mem::replace(&mut permit.on, false);
        Hold { permit, before }
    }

    // Ends the hold before its scope does.
    pub fn release(self)
        ensures { self.exit.0.now ≡ self.entry.before }
    {}
}

impl Drop for Hold<'_> {
    fn drop(self)
        ensures { self.exit.0.now ≡ self.entry.before }
    {
        let Hold { permit, before } = self;
        permit.on = before;
    }
}
