// Lists of widths, whose last one serves all further places.
ghost use Rattle.std.specs.Prelude.{◌≡◌, ℕ, ◌-◌, ◌<◌, ◌≤◌, min, T, MatchResult, length, slice_index};
ghost use Rattle.plan.specs.Widths.{served, Proper};

use crate::fault::PlanFault;
use std::array;

// Eight widths, the last of which serves all further places. A shorter list is filled up with its last width.
#[derive(Clone, Copy)]
pub struct Widths {
    bits: [u8; 8],
    ghost some: { 1 ≤ length bits },
    ghost low: { (k : ℕ) → k < length bits → 1 ≤ slice_index bits k },
    ghost high: { (k : ℕ) → k < length bits → slice_index bits k ≤ 8 },
}

impl Widths {
    // A list filled up with its last width, if it is lawful.
    pub(crate) fn new(list: &[u8]) -> Result<Widths, PlanFault>
        ensures { MatchResult result (λ w. Proper list.now × ((i : ℕ) → served w.bits i ≡ served list.now i)) (λ _. Proper list.now → ⊥) }
    {
        if is_proper(list) {
            Ok(Widths::filled(list))
        } else {
            Err(PlanFault::Unlawful)
        }
    }

    // A lawful list, filled up with its last width.
    pub(crate) fn filled(list: &[u8]) -> Widths
        requires { Proper list.now }
        ensures { (i : ℕ) → served result.bits i ≡ served list.now i }
    {
        let last = list.len() - 1;
        Widths {
            bits: array::from_fn(|i| list[i.min(last)]),
        }
    }

    // The width that serves the place `i`.
    pub(crate) fn at(&self, i: usize) -> u32
        ensures { result ≡ served self.now.bits i }
    {
        u32::from(self.bits[i.min(7)])
    }
}

// Whether a plan takes the list.
fn is_proper(list: &[u8]) -> bool
    ensures yes { T result → Proper list.now }
    ensures no { Proper list.now → T result }
{
    matches!(list.len(), 1..=8) && list.iter().all(|w| matches!(w, 1..=8))
}
