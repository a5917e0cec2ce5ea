// `Best` as an objective.
ghost use Rattle.objectives.specs.BestValues.{costed_of};
ghost use Rattle.objectives.specs.Objectives.{Costed, best_ops};
ghost use Rattle.std.proofs.Common.{rules};

use super::{Best, CostCount};
use crate::cost::Cost;
use crate::objective::Objective;
use crate::total::Total;
use std::cmp::Ordering;

impl Objective for Best {
    type Value = CostCount;

    ghost Means = { Costed };

    ghost means = { costed_of };

    ghost ops = { λ _. best_ops };

    ghost lawful = { Prim.search rules };

    fn start(&self) -> CostCount {
        CostCount { cost: 0, count: 1 }
    }

    fn extend(&self, value: CostCount, figure: u16) -> CostCount {
        let cost = Total.raise(value.cost, figure);
        let count = if cost < u32::MAX { value.count } else { 0 };
        CostCount { cost, count }
    }

    fn join(&self, one: CostCount, other: CostCount) -> CostCount {
        match one.cost.cmp(&other.cost) {
            Ordering::Less => one,
            Ordering::Greater => other,
            Ordering::Equal => CostCount {
                cost: one.cost,
                count: one.count.wrapping_add(other.count),
            },
        }
    }
}
