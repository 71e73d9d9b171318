// Carrying a script out.
ghost use Rattle.std.specs.Prelude.{◌≡◌, ℕ};
ghost use Rattle.plan.specs.Plans.{by_either, Makes};
ghost use Rattle.kushrebat.specs.Carrying.{place_of, Chooses, Asks, Tells, Finds, Carries, AnswersLine};

use crate::answer::{Answer, Refusal};
use crate::command::{Command, PlanKind};
use crate::script::fault::LineFault;
use gap::Bounds;
use label::{Word, read, take_apart};
use plan::{AnyPlan, LevelPlan, PlanFault, PositionPlan};
use std::alloc::Global;

// The plan of a kind with these widths.
fn planned(kind: PlanKind, widths: &[u8]) -> Result<AnyPlan, PlanFault>
    ensures { Makes by_either (place_of kind) widths.now result }
{
    match kind {
        PlanKind::Position => PositionPlan::new(widths).map(AnyPlan::Position),
        PlanKind::Level => LevelPlan::new(widths).map(AnyPlan::Level),
    }
}

fn ask(plan: &AnyPlan, word: Word) -> Result<Answer, Refusal>
    ensures { Asks plan.now word result }
{
    let reading = read(plan, word)?;
    let text = take_apart(plan, word)?;
    Ok(Answer::Read(reading, text))
}

fn relate(plan: &AnyPlan, first: Word, second: Word) -> Result<Answer, Refusal>
    ensures { Tells plan.now first second result }
{
    Ok(Answer::Stands(label::relate(plan, first, second)?))
}

fn between(plan: &AnyPlan, parent: Word, bounds: Bounds) -> Result<Answer, Refusal>
    ensures { Finds plan.now parent bounds.lower bounds.upper result }
{
    let word = gap::between(plan, parent, bounds)?.ok_or(Refusal::NoPlace)?;
    let text = take_apart(plan, word)?;
    Ok(Answer::Found(word, text))
}

// What a script has set up so far.
#[derive(Drop)]
pub struct Session {
    plan: AnyPlan,
}

impl Session {
    // At the start the plan is plan 4.
    pub(crate) fn new() -> Session
        ensures { (level position : ℕ) → by_either result.plan level position ≡ 4 }
    {
        Session {
            plan: AnyPlan::Position(PositionPlan::plan4()),
        }
    }

    // Chooses another plan; a refused one leaves the plan as it was.
    fn choose(&mut self, kind: PlanKind, widths: &[u8]) -> Result<Answer, Refusal>
        ensures { Chooses self.old kind widths.now result self.new }
    {
        self.plan = planned(kind, widths)?;
        Ok(Answer::Done)
    }

    fn carry_out(&mut self, command: Command) -> Result<Answer, Refusal>
        ensures { Carries self.old command result self.new }
    {
        match command {
            Command::Plan(kind, widths) => self.choose(kind, widths.as_slice()),
            Command::Ask(word) => ask(&self.plan, word),
            Command::Relate(first, second) => relate(&self.plan, first, second),
            Command::Between(parent, bounds) => between(&self.plan, parent, bounds),
            Command::Factory => Ok(Answer::FactoryRows),
        }
    }

    // The answer to a line, or none where it has no word.
    pub(crate) fn answer_line(&mut self, heap: Global, line: &[u8]) -> Option<Answer>
        ensures { AnswersLine self.old line.now result self.new }
    {
        let answer = match Command::parse(heap, line).transpose()? {
            Ok(command) => self.carry_out(command).unwrap_or_else(Answer::Refused),
            Err(fault) => Answer::Unreadable(fault),
        };
        Some(answer)
    }
}
