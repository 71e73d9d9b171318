// What the widths of a list go by.
ghost use Rattle.std.specs.Prelude.{◌≡◌, ℕ};
ghost use Rattle.plan.specs.Places.{level_place, position_place};

// The place in a list of widths that goes with a level and a position.
pub trait Axis: Copy {
    ghost place: { ℕ → ℕ → ℕ };

    fn place(level: usize, position: usize) -> usize
        ensures { result ≡ place level position };
}

// A width for each position within a level. The last one given serves all further positions.
#[derive(Clone, Copy)]
pub struct ByPosition;

impl Axis for ByPosition {
    ghost place = { position_place };

    fn place(_level: usize, position: usize) -> usize {
        position
    }
}

// A width for each level. The last one given serves all deeper levels.
#[derive(Clone, Copy)]
pub struct ByLevel;

impl Axis for ByLevel {
    ghost place = { level_place };

    fn place(level: usize, _position: usize) -> usize {
        level.saturating_sub(1)
    }
}
