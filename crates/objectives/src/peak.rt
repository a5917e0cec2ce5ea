// The largest figure of a sequence; of two values the smaller is kept.
ghost use Rattle.std.specs.Prelude.{max};
ghost use Rattle.std.proofs.Common.{rules};

use crate::cost::Cost;

#[derive(Drop)]
pub struct Peak;

impl Cost for Peak {
    ghost raised = { λ _. max };

    ghost rises = { Prim.search rules };

    fn raise(&self, cost: u32, figure: u16) -> u32 {
        cost.max(u32::from(figure))
    }
}
