ghost use Rattle.std.specs.Prelude.{◌≡◌, map};
ghost use Rattle.transition_formula.specs.StoredStep.{step_of};

use crate::schedule_step::ScheduleStep;
use lin_rows::NumberList;
use std::marker::Model;

/// The steps of a schedule, in order, which contracts see as a run's.
#[derive(Debug, Drop)]
pub struct ScheduleSteps {
    steps: Vec<ScheduleStep>,
}

impl Model for ScheduleSteps {
    ghost use Rattle.std.specs.Prelude.{List, map};
    ghost use Rattle.transition_formula.specs.Run.{RunStep};
    ghost use Rattle.transition_formula.specs.StoredStep.{step_of};

    ghost Value = { List RunStep };

    ghost view = { λ inside. map step_of inside.steps.items };
}

impl ScheduleSteps {
    pub fn of(steps: Vec<ScheduleStep>) -> ScheduleSteps
        ensures { result ≡ map step_of steps.items }
    {
        ScheduleSteps { steps }
    }

    pub fn as_slice(&self) -> &[ScheduleStep]
        ensures { map step_of result.now ≡ self.now }
    {
        self.steps.as_slice()
    }

    pub fn into_vec(self) -> Vec<ScheduleStep>
        ensures { map step_of result.items ≡ self }
    {
        self.steps
    }
}

/// A run that is told: a state, and the steps from there.
#[derive(Debug, Drop)]
pub struct Schedule {
    pub start: NumberList,
    pub steps: ScheduleSteps,
}
