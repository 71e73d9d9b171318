// A number that is known to lie within bounds.
ghost use Rattle.std.specs.Prelude.{◌≤◌};

// A number from LOW to HIGH, both included. `ok` is the proof of that, which every value carries and
// which is gone when the program runs, so that a card built from such numbers is lawful by its type.
#[derive(Clone, Copy, PartialEq, Eq, Debug)]
pub struct Bounded<const LOW: u16, const HIGH: u16> {
    value: u16,
    ghost ok: { (LOW ≤ value) × (value ≤ HIGH) },
}

// The methods stand in a file of their own: their contracts cite definitions that name the struct.
mod methods;
