// The rule Limit, over any rule: no figure above a number.
ghost use Rattle.std.specs.Prelude.{◌≡◌, ℕ, List, [], ◌∷◌, ◌++◌};
ghost use Rattle.rules.specs.Meanings.{limit_asks, limit_count};
ghost use Rattle.rules.specs.Piles.{pile, within, within_all};
ghost use Rattle.sequences.specs.Steps.{figures};
ghost use Rattle.sequences.specs.StepRules.{limit};
ghost use Rattle.rules.specs.Laws.{limit_keeps};

use crate::answer::Answer;
use crate::rule::Rule;
use sets::SheetSet;

#[derive(Drop)]
pub struct Limit<R> {
    most: u16,
    below: R,
}

impl<R: Rule> Limit<R> {
    pub fn new(k: u16, below: R) -> Limit<R>
        ensures count { limit_count R.Rule.count result ≡ R.Rule.count below }
        ensures asks { limit_asks R.Rule.asks result ≡ limit k (R.Rule.asks below) }
        ensures figures { (s : List ℕ) → figures (limit_asks R.Rule.asks result) s ≡ within k (figures (R.Rule.asks below) s) }
        ensures pile { (ks : List ℕ) (s : List ℕ) → figures (pile ks (limit_asks R.Rule.asks result)) s ≡ within_all (ks ++ k ∷ []) (figures (R.Rule.asks below) s) }
    {
        Limit { most: k, below }
    }
}

impl<R: Rule> Rule for Limit<R> {
    ghost count = { limit_count R.Rule.count };

    ghost asks = { limit_asks R.Rule.asks };

    ghost keeps = { λ r. limit_keeps _ r.most _ (R.Rule.keeps r.below) };

    fn sheets(&self) -> u8 {
        self.below.sheets()
    }

    fn ask(&self, done: SheetSet, next: u8) -> Answer {
        let answer = self.below.ask(done, next);
        Answer {
            figure: answer.figure.filter(|&figure| figure <= self.most),
        }
    }
}
