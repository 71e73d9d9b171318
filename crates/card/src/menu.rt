// Menu cards: the entries of a menu.
ghost use Rattle.std.specs.Prelude.{◌+◌, ◌≤◌};

use crate::bounded::Bounded;

// How long a caption is.
pub type Length = Bounded<1, 24>;

// The number of what an entry does.
pub type Action = Bounded<0, 999>;

// An entry of a menu: where its caption starts and how long it is, and what the entry does. `ok` is the proof that start
// and length together are at most 65535. So every value is a lawful card.
#[derive(Clone, Copy, PartialEq, Eq, Debug)]
pub struct MenuCard {
    start: u16,
    length: Length,
    action: Action,
    ghost ok: { start + length.value ≤ 65535 },
}

// What is done with a menu card stands in files of their own: the contracts there cite definitions that name the struct.
mod methods;
mod text;
mod words;
