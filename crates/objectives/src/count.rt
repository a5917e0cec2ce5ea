// How many sequences there are, modulo 2^64: each counts as one, whatever its figures.
ghost use Rattle.objectives.specs.Objectives.{count_ops};
ghost use Rattle.std.specs.Prelude.{ℕ};
ghost use Rattle.std.proofs.Common.{rules};

use crate::objective::Objective;

#[derive(Drop)]
pub struct Count;

impl Objective for Count {
    type Value = u64;

    ghost Means = { ℕ };

    ghost means = { λ v. v };

    ghost ops = { λ _. count_ops };

    ghost lawful = { Prim.search rules };

    fn start(&self) -> u64 {
        1
    }

    fn extend(&self, value: u64, _figure: u16) -> u64 {
        value
    }

    fn join(&self, one: u64, other: u64) -> u64 {
        one.wrapping_add(other)
    }
}
