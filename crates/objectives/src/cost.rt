// Objectives whose value is a cost: it begins at 0, figures raise it, and of two costs the smaller is kept.
ghost use Rattle.objectives.specs.Objectives.{cost_ops};
ghost use Rattle.sequences.specs.Steps.{most_figure};
ghost use Rattle.std.specs.Prelude.{◌≡◌, ℕ, ◌≤◌};
ghost use Rattle.std.proofs.Common.{rules};

use crate::objective::{Objective, Picking};

pub trait Cost: Drop {
    // a cost and a figure give a cost
    ghost raised: { Self → ℕ → ℕ → ℕ };

    fn raise(&self, cost: u32, figure: u16) -> u32
        ensures value { result ≡ raised self.now cost figure };

    // two costs that one figure raises keep their order
    ghost rises: { (c : Self) (v w f : ℕ) → v ≤ w → f ≤ most_figure → raised c v f ≤ raised c w f };
}

impl<C: Cost> Objective for C {
    type Value = u32;

    ghost Means = { ℕ };

    ghost means = { λ v. v };

    ghost ops = { λ c. cost_ops (C.raised c) };

    ghost lawful = { Prim.search rules };

    fn start(&self) -> u32 {
        0
    }

    fn extend(&self, value: u32, figure: u16) -> u32 {
        self.raise(value, figure)
    }

    fn join(&self, one: u32, other: u32) -> u32 {
        one.min(other)
    }
}

impl<C: Cost> Picking for C {
    ghost picks = { Prim.search rules };

    fn keeps_first(&self, one: u32, other: u32) -> bool {
        one <= other
    }
}
