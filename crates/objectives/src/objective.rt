// What an objective owes: a start value, a value extended by a figure, and two values joined, with their laws.
ghost use Rattle.sequences.specs.Values.{Ops, Lawful, Picks};
ghost use Rattle.std.specs.Prelude.{◌≡◌, true, if◌then◌else◌};

pub trait Objective: Drop {
    type Value: Copy;

    // What a value means. The laws speak of meanings, so that a value may have several forms.
    ghost Means: { Type 0 };

    ghost means: { Self.Value → Means };

    ghost ops: { Self → Ops Means };

    fn start(&self) -> Self::Value
        ensures value { means result ≡ (ops self.now).start };

    fn extend(&self, value: Self::Value, figure: u16) -> Self::Value
        ensures value { means result ≡ (ops self.now).extend (means value) figure };

    fn join(&self, one: Self::Value, other: Self::Value) -> Self::Value
        ensures value { means result ≡ (ops self.now).join (means one) (means other) };

    ghost lawful: { (o : Self) → Lawful (ops o) };
}

// An objective that says which of two values it keeps: its join is that one.
pub trait Picking: Objective {
    // Whether the join is the first of the two; so it is where both mean the same.
    fn keeps_first(&self, one: Self::Value, other: Self::Value) -> bool
        ensures kept { Self.Objective.means (if result then one else other) ≡ (Self.Objective.ops self.now).join (Self.Objective.means one) (Self.Objective.means other) }
        ensures first { Self.Objective.means one ≡ Self.Objective.means other → result ≡ true };

    ghost picks: { (o : Self) → Picks (Self.Objective.ops o) };
}
