// The rule for a table with so many places for stacks.
ghost use Rattle.job.specs.Jobs.{content_of};
ghost use Rattle.rules.specs.Meanings.{limit_asks, limit_count, open_asks, open_count};
ghost use Rattle.sequences.specs.JobCosts.{PermitsPeaks};
ghost use Rattle.sequences.specs.StepRules.{limit, open_rule};
ghost use Rattle.std.specs.Prelude.{◌≡◌, length};

use crate::limit::Limit;
use crate::stacks::Open;
use job::Job;

// No step may have more open stacks than there are places.
pub fn within_places(job: &Job, places: u16) -> Limit<Open>
    ensures count { limit_count open_count result ≡ length (content_of job.now).rows }
    ensures asks { limit_asks open_asks result ≡ limit places (open_rule (content_of job.now).rows) }
    ensures permits { PermitsPeaks places (limit_asks open_asks result) (content_of job.now) }
{
    Limit::new(places, Open::of(job))
}
