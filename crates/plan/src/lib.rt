// Width plans: how many bits a subvalue of a label takes, by its level (from 1) and its position in the level (from 0).
#![tactic(auto)]

mod any;
mod axis;
mod fault;
mod list_plan;
mod width_plan;
mod widths;

pub use any::AnyPlan;
pub use axis::{Axis, ByLevel, ByPosition};
pub use fault::PlanFault;
pub use list_plan::{LevelPlan, ListPlan, PositionPlan};
pub use width_plan::WidthPlan;
