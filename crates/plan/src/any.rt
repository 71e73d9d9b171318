// A plan that is chosen while the program runs.
ghost use Rattle.plan.specs.Plans.{by_either};
ghost use Rattle.std.proofs.Common.{rules};

use crate::list_plan::{LevelPlan, PositionPlan};
use crate::width_plan::WidthPlan;

// A position plan or a level plan.
#[derive(Clone, Copy)]
pub enum AnyPlan {
    Position(PositionPlan),
    Level(LevelPlan),
}

impl WidthPlan for AnyPlan {
    ghost width = { by_either };

    ghost low = { Prim.search rules };

    ghost high = { Prim.search rules };

    fn width(&self, level: usize, position: usize) -> u32 {
        match self {
            AnyPlan::Position(plan) => plan.width(level, position),
            AnyPlan::Level(plan) => plan.width(level, position),
        }
    }
}
