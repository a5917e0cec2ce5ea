// The sum of a sequence's figures; of two values the smaller is kept.
ghost use Rattle.objectives.specs.Objectives.{add_cost};
ghost use Rattle.std.proofs.Common.{rules};

use crate::cost::Cost;

#[derive(Drop)]
pub struct Total;

impl Cost for Total {
    ghost raised = { λ _. add_cost };

    ghost rises = { Prim.search rules };

    fn raise(&self, cost: u32, figure: u16) -> u32 {
        cost.saturating_add(u32::from(figure))
    }
}
