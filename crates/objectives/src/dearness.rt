// Which of two values is the dearer, for every objective that picks.
ghost use Rattle.sequences.specs.Values.{AtMostAsDear, TotalPreorder};
ghost use Rattle.std.specs.Prelude.{Decides};

use crate::objective::Picking;

// Whether the join of the two is the first.
pub fn at_most_as_dear<O: Picking>(objective: &O, one: O::Value, other: O::Value) -> bool
    ensures value { Decides result (AtMostAsDear (O.Objective.ops objective.now) (O.Objective.means one) (O.Objective.means other)) }
    ensures preorder { TotalPreorder (AtMostAsDear (O.Objective.ops objective.now)) }
{
    objective.keeps_first(one, other)
}
