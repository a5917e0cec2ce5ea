// A question: an objective over a step rule.
ghost use Rattle.questions.specs.Answered.{valued};
ghost use Rattle.sequences.specs.Joins.{OneJoin};
ghost use Rattle.sequences.specs.Values.{value};
ghost use Rattle.std.specs.Prelude.{◌≡◌};

use objectives::Objective;
use rules::Rule;
use sets::SheetSet;

#[derive(Drop)]
pub struct Question<O, R> {
    pub objective: O,
    pub rule: R,
}

impl<O: Objective, R: Rule> Question<O, R> {
    // How many sheets a sequence has here. Over all permitted sequences, each taken once, the question has one answer.
    pub fn sheets(&self) -> u8
        ensures value { result ≡ R.Rule.count self.now.rule }
        ensures one { OneJoin (O.Objective.ops self.now.objective) result (R.Rule.asks self.now.rule) }
    {
        self.rule.sheets()
    }

    // What a list of sheets comes to; nothing where a step of it is forbidden. A sequence names every sheet, a list need not.
    pub fn value_of(&self, list: &[u8]) -> Option<O::Value>
        ensures value { valued O.Objective.means result ≡ value (O.Objective.ops self.now.objective) (R.Rule.asks self.now.rule) list.now }
    {
        let mut value = self.objective.start();
        let mut done = SheetSet { bits: 0 };
        for &sheet in list {
            let figure = self.rule.ask(done, sheet).figure?;
            value = self.objective.extend(value, figure);
            done = done.with(sheet);
        }
        Some(value)
    }
}
