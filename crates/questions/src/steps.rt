// What a list of sheets costs a job, step by step: each question asked of one list.
ghost use Rattle.job.specs.Jobs.{content_of};
ghost use Rattle.objectives.specs.BestValues.{costed_of};
ghost use Rattle.objectives.specs.Objectives.{best_ops, count_ops, peak_ops, total_ops};
ghost use Rattle.questions.specs.Answered.{valued};
ghost use Rattle.questions.specs.StepCosts.{CostsOf};
ghost use Rattle.sequences.specs.JobCosts.{SequenceOf};
ghost use Rattle.sequences.specs.StepRules.{due_rule, limit, open_rule};
ghost use Rattle.sequences.specs.Values.{value};
ghost use Rattle.std.specs.Prelude.{◌≡◌};

use crate::asked::{over_due, over_open, over_open_within};
use job::Job;
use objectives::{Best, CostCount, Count, Peak, Total};

// Nothing where a step is forbidden.
#[derive(Clone, Copy, PartialEq, Eq, Debug)]
pub struct StepCosts {
    pub peak: Option<u32>,
    pub spread: Option<u32>,
    pub lateness: Option<u32>,
    pub best: Option<CostCount>,
    pub count: Option<u64>,
}

// Of a sequence these are its peak, its spread, its lateness, its spread once, and 1 where its peak is within the places.
pub fn step_costs(job: &Job, list: &[u8], places: u16) -> StepCosts
    ensures peak { result.peak ≡ value peak_ops (open_rule (content_of job.now).rows) list.now }
    ensures spread { result.spread ≡ value total_ops (open_rule (content_of job.now).rows) list.now }
    ensures lateness { result.lateness ≡ value total_ops (due_rule (content_of job.now).rows (content_of job.now).dues) list.now }
    ensures best { valued costed_of result.best ≡ value best_ops (open_rule (content_of job.now).rows) list.now }
    ensures count { result.count ≡ value count_ops (limit places (open_rule (content_of job.now).rows)) list.now }
    ensures sequence { SequenceOf (content_of job.now) list.now → CostsOf (content_of job.now) list.now places result }
{
    StepCosts {
        peak: over_open(Peak, job).value_of(list),
        spread: over_open(Total, job).value_of(list),
        lateness: over_due(Total, job).value_of(list),
        best: over_open(Best, job).value_of(list),
        count: over_open_within(Count, job, places).value_of(list),
    }
}
