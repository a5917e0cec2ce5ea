// Tests of what sequences cost: lists of sheets as a table, each measured and valued by every question. Beside them, tests of
// rules and objectives at their ends.
#![tactic(auto)]

#[cfg(test)]
mod asked_rules;
#[cfg(test)]
mod cases;
#[cfg(test)]
mod objective_ends;

#[cfg(test)]
mod tests {
    use crate::cases::{A, B, Case, Cases, FIVE, FULL, LARGE, ONE, SAME};
    use job::Job;
    use measures::{Measures, measure};
    use questions::{StepCosts, step_costs};
    use std::alloc::Global;
    use std::test::Fail;

    pub(crate) fn read(heap: Global, cases: &Cases) -> Result<Job, Fail> {
        Job::read(cases.file.to_vec(heap)?).map_err(|_| Fail::new("the job is refused"))
    }

    // A sequence costs what the table says.
    fn is_measured(job: &Job, case: &Case) -> bool {
        let expected = Measures {
            peak: case.peak,
            spread: case.spread,
            lateness: case.lateness,
        };
        measure(job, case.list) == Some(expected)
    }

    // Found step by step, it costs the same, and counts once.
    fn is_stepped(job: &Job, case: &Case) -> bool {
        let found = step_costs(job, case.list, case.peak);
        found.peak == Some(u32::from(case.peak))
            && found.spread == Some(case.spread)
            && found.lateness == Some(case.lateness)
            && found
                .best
                .is_some_and(|best| best.cost() == case.spread && best.count() == 1)
            && found.count == Some(1)
    }

    // Where a place is missing it counts not at all.
    fn is_too_high(job: &Job, case: &Case) -> bool {
        let fewer = step_costs(job, case.list, case.peak.saturating_sub(1));
        fewer.count == None
    }

    // No question has a value for a list with a step that no rule permits.
    fn is_unvalued(job: &Job, list: &[u8]) -> bool {
        let nothing = StepCosts {
            peak: None,
            spread: None,
            lateness: None,
            best: None,
            count: None,
        };
        step_costs(job, list, 65535) == nothing
    }

    // A list that is no sequence has no costs.
    fn is_unmeasured(job: &Job, list: &[u8]) -> bool {
        measure(job, list).is_none()
    }

    // The test fails where this does not hold, and names the case.
    fn check(kind: &str, at: usize, holds: bool) -> Result<(), Fail> {
        if holds {
            Ok(())
        } else {
            Err(Fail::new(format_args!("{kind} {at}")))
        }
    }

    fn all_lists(heap: Global, cases: &Cases) -> Result<(), Fail> {
        let job = read(heap, cases)?;
        cases.sequences.iter().enumerate().try_for_each(|(at, case)| {
            let holds = is_measured(&job, case)
                && is_stepped(&job, case)
                && is_too_high(&job, case);
            check("sequence", at, holds)
        })?;
        cases.forbidden.iter().enumerate().try_for_each(|(at, &list)| {
            let holds = is_unvalued(&job, list) && is_unmeasured(&job, list);
            check("forbidden list", at, holds)
        })?;
        cases.short.iter().enumerate().try_for_each(|(at, &list)| {
            check("short list", at, is_unmeasured(&job, list))
        })
    }

    #[test]
    fn job_a(rt: HostRuntime) -> Result<(), Fail> {
        all_lists(rt.alloc(), &A)
    }

    #[test]
    fn job_b(rt: HostRuntime) -> Result<(), Fail> {
        all_lists(rt.alloc(), &B)
    }

    #[test]
    fn one_sheet(rt: HostRuntime) -> Result<(), Fail> {
        all_lists(rt.alloc(), &ONE)
    }

    #[test]
    fn the_same_order(rt: HostRuntime) -> Result<(), Fail> {
        all_lists(rt.alloc(), &SAME)
    }

    #[test]
    fn five_sheets(rt: HostRuntime) -> Result<(), Fail> {
        all_lists(rt.alloc(), &FIVE)
    }

    #[test]
    fn large_job(rt: HostRuntime) -> Result<(), Fail> {
        all_lists(rt.alloc(), &LARGE)
    }

    #[test]
    fn full_job(rt: HostRuntime) -> Result<(), Fail> {
        all_lists(rt.alloc(), &FULL)
    }
}
