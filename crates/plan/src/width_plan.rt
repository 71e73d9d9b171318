// What every width plan answers.
ghost use Rattle.std.specs.Prelude.{◌≡◌, ℕ, ◌≤◌};

// A width plan: a width of 1 to 8 bits for each level (1 is the head's) and each position within the level (from 0).
// The width is a value of the plan itself, so the same question always gets the same answer.
pub trait WidthPlan {
    // The width at a level and a position.
    ghost width: { Self → ℕ → ℕ → ℕ };

    // Kept: a level and a position are no type of their own here, since `plan.width(Spot { level, position })` at each call is longer than `plan.width(level, position)`; code that keeps both has `label`'s `Spot`.
    fn width(&self, level: usize, position: usize) -> u32
        ensures { result ≡ width self.now level position };

    ghost low: { (p : Self) (level position : ℕ) → 1 ≤ width p level position };

    ghost high: { (p : Self) (level position : ℕ) → width p level position ≤ 8 };
}
