// The least sum of figures, and how many sequences have it.
ghost use Rattle.std.specs.Prelude.{◌≡◌};

pub mod extending;
pub mod reading;

#[derive(Drop)]
pub struct Best;

// A cost, and how many sequences have it, modulo 2^64.
#[derive(Clone, Copy, PartialEq, Eq, Debug)]
pub struct CostCount {
    cost: u32,
    count: u64,
    // a sum that was cut off at the top is no sequence's cost
    ghost uncounted: { cost ≡ 4294967295 → count ≡ 0 },
}
