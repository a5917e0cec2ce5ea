// From which step to which an order's stack stands.
ghost use Rattle.sequences.specs.Stacks.{IsFirst, IsLast, serving, first, last, is_open, span};
ghost use Rattle.sets.specs.RowLists.{rows_of};
ghost use Rattle.std.specs.Prelude.{◌≡◌, ℕ, ◌+◌, ◌-◌, ◌≤◌, Bool, ◌&&◌, List, nat_le};

use sets::Rows;

// The steps of an order's earliest and latest sheet. Where no sheet serves it, `first` lies past the end and `last` is 0.
#[derive(Clone, Copy, Debug, PartialEq, Eq)]
pub struct Stack {
    pub first: usize,
    pub last: usize,
    // steps count from 1
    ghost counted: { 1 ≤ first },
}

impl Stack {
    pub fn of(rows: &Rows, sequence: &[u8], order: u16) -> Stack
        ensures first { result.first ≡ first (serving (rows_of rows.now) order) sequence.now }
        ensures last { result.last ≡ last (serving (rows_of rows.now) order) sequence.now }
        ensures earliest { IsFirst (serving (rows_of rows.now) order) sequence.now result.first }
        ensures latest { IsLast (serving (rows_of rows.now) order) sequence.now result.last }
    {
        let serves = |&sheet: &u8| rows.row(sheet).has(order);
        let first = sequence.iter().position(serves).unwrap_or(sequence.len()) + 1;
        let last = sequence.iter().rposition(serves).map_or(0, |at| at + 1);
        Stack { first, last }
    }

    // Whether the stack is open in a step.
    pub fn is_open(self, step: usize) -> bool
        ensures value { (serves : ℕ → Bool) (s : List ℕ) → self.first ≡ first serves s → self.last ≡ last serves s → result ≡ is_open serves s step }
        ensures steps { result ≡ (nat_le self.first step && nat_le step self.last) }
    {
        (self.first..=self.last).contains(&step)
    }

    // In how many steps the stack is open.
    pub fn span(self) -> usize
        ensures value { (serves : ℕ → Bool) (s : List ℕ) → self.first ≡ first serves s → self.last ≡ last serves s → result ≡ span serves s }
        ensures steps { result ≡ self.last + 1 - self.first }
    {
        self.last.saturating_sub(self.first - 1)
    }
}
