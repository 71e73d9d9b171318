// The chain: rows that stay in their slots, each with the slot of the next.
ghost use Rattle.std.specs.Prelude.{◌≡◌, ℕ, ◌<◌, ◌≤◌, length};
ghost use Rattle.shelf.specs.Rows.{most_rows, Rising};
ghost use Rattle.chain.specs.Links.{slot_at, walked};

use crate::link::Link;

// The list is what a walk of `len` steps from the slot `head` on visits. The first `len` slots are those in use; what the others hold is of no account.
// A row is found by one walk, and put by one walk and one link that is turned.
// Kept: there is no heap below the program, so the links lie in memory handed in, and a link names the next by its slot.
#[derive(Drop)]
pub struct Chain<'a> {
    links: &'a mut [Link],
    head: u16,
    len: usize,
    ghost few: { len ≤ most_rows },
    ghost fits: { len ≤ length links.now },
    ghost inside: { (j : ℕ) → j < len → slot_at links.now head j < len },
    ghost long: { length (walked links.now head len) ≡ len },
    ghost rising: { Rising (walked links.now head len) },
}

pub mod as_shelf;
mod walk;
mod write;
