// What a value of `Best` says.
ghost use Rattle.objectives.specs.BestValues.{CutOffUncounted, ToldByMeaning, costed_of};
ghost use Rattle.objectives.specs.Objectives.{dearest};
ghost use Rattle.std.specs.Prelude.{◌≡◌, Decides};

use super::CostCount;

impl CostCount {
    pub fn cost(self) -> u32
        ensures value { result ≡ (costed_of self).cost }
    {
        self.cost
    }

    pub fn count(self) -> u64
        ensures value { result ≡ (costed_of self).count }
        ensures uncounted { (costed_of self).cost ≡ dearest → result ≡ 0 }
        ensures every { CutOffUncounted }
    {
        self.count
    }

    // Whether both are the same value; so they are where they mean the same.
    pub fn same(self, other: CostCount) -> bool
        ensures value { Decides result (self ≡ other) }
        ensures meaning { Decides result (costed_of self ≡ costed_of other) }
        ensures every { ToldByMeaning }
    {
        self == other
    }
}
