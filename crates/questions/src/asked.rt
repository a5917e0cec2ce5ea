// An objective over a rule of a job, with what the value of a sequence is then.
ghost use Rattle.job.specs.Jobs.{content_of};
ghost use Rattle.objectives.specs.Objectives.{best_ops, peak_ops, total_ops};
ghost use Rattle.questions.specs.Answered.{CountsPeaks, NothingCut, ValuesAre, once};
ghost use Rattle.rules.specs.Meanings.{due_asks, due_count, limit_asks, limit_count, open_asks, open_count};
ghost use Rattle.sequences.specs.JobCosts.{PermitsPeaks, lateness_of, peak_of, spread_of};
ghost use Rattle.sequences.specs.StepRules.{due_rule, limit, open_rule};
ghost use Rattle.std.specs.Prelude.{◌≡◌, length};

use crate::question::Question;
use job::Job;
use objectives::Objective;
use rules::{Due, Limit, Open, within_places};

// Over Open, the value of a sequence by Peak is its peak, by Total its spread, and by Best its spread, once.
pub fn over_open<O: Objective>(objective: O, job: &Job) -> Question<O, Open>
    ensures objective { result.objective ≡ objective }
    ensures sheets { open_count result.rule ≡ length (content_of job.now).rows }
    ensures rule { open_asks result.rule ≡ open_rule (content_of job.now).rows }
    ensures peak { ValuesAre peak_ops (open_asks result.rule) (content_of job.now) (peak_of (content_of job.now)) }
    ensures spread { ValuesAre total_ops (open_asks result.rule) (content_of job.now) (spread_of (content_of job.now)) }
    ensures best { ValuesAre best_ops (open_asks result.rule) (content_of job.now) (once (spread_of (content_of job.now))) }
    ensures uncut { NothingCut (content_of job.now) (spread_of (content_of job.now)) }
{
    Question {
        objective,
        rule: Open::of(job),
    }
}

// Over Due, the value of a sequence by Total is its lateness.
pub fn over_due<O: Objective>(objective: O, job: &Job) -> Question<O, Due>
    ensures objective { result.objective ≡ objective }
    ensures sheets { due_count result.rule ≡ length (content_of job.now).rows }
    ensures rule { due_asks result.rule ≡ due_rule (content_of job.now).rows (content_of job.now).dues }
    ensures late { ValuesAre total_ops (due_asks result.rule) (content_of job.now) (lateness_of (content_of job.now)) }
    ensures uncut { NothingCut (content_of job.now) (lateness_of (content_of job.now)) }
{
    Question {
        objective,
        rule: Due::of(job),
    }
}

// Over Open within so many places: sequences with a higher peak are not permitted, and by Count each of the others is 1.
pub fn over_open_within<O: Objective>(
    objective: O,
    job: &Job,
    places: u16,
) -> Question<O, Limit<Open>>
    ensures objective { result.objective ≡ objective }
    ensures sheets { limit_count open_count result.rule ≡ length (content_of job.now).rows }
    ensures rule { limit_asks open_asks result.rule ≡ limit places (open_rule (content_of job.now).rows) }
    ensures permits { PermitsPeaks places (limit_asks open_asks result.rule) (content_of job.now) }
    ensures count { CountsPeaks places (limit_asks open_asks result.rule) (content_of job.now) }
{
    Question {
        objective,
        rule: within_places(job, places),
    }
}
