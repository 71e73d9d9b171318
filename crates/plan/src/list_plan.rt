// Plans that are made of a list of widths.
ghost use Rattle.std.specs.Prelude.{◌≡◌, ℕ};
ghost use Rattle.plan.specs.Plans.{by_place, by_position, Makes, Sets};
ghost use Rattle.std.proofs.Common.{rules};

use crate::axis::{Axis, ByLevel, ByPosition};
use crate::fault::PlanFault;
use crate::width_plan::WidthPlan;
use crate::widths::Widths;
use std::marker::PhantomData;

// A plan that takes its widths from a list, each from the place that `A` names.
#[derive(Clone, Copy)]
pub struct ListPlan<A> {
    widths: Widths,
    axis: PhantomData<A>,
}

// The position plan: a width for each position within a level.
pub type PositionPlan = ListPlan<ByPosition>;

// The level plan: a width for each level.
pub type LevelPlan = ListPlan<ByLevel>;

impl<A: Axis> WidthPlan for ListPlan<A> {
    ghost width = { by_place A.place };

    ghost low = { Prim.search rules };

    ghost high = { Prim.search rules };

    fn width(&self, level: usize, position: usize) -> u32 {
        self.widths.at(A::place(level, position))
    }
}

impl<A: Axis> ListPlan<A> {
    // The plan with the widths of a list.
    pub fn new(widths: &[u8]) -> Result<Self, PlanFault>
        ensures { Makes (by_place A.place) A.place widths.now result }
    {
        Ok(ListPlan {
            widths: Widths::new(widths)?,
            axis: PhantomData,
        })
    }

    // Gives the plan other widths; a refused list leaves it as it was.
    pub fn set(&mut self, widths: &[u8]) -> Result<(), PlanFault>
        ensures { Sets (by_place A.place) A.place widths.now self.old result self.new }
    {
        *self = Self::new(widths)?;
        Ok(())
    }
}

impl PositionPlan {
    // Plan 4, which is built in: the one width 4.
    pub fn plan4() -> PositionPlan
        ensures { (level position : ℕ) → by_position result level position ≡ 4 }
    {
        ListPlan {
            widths: Widths::filled(&[4]),
            axis: PhantomData,
        }
    }
}
