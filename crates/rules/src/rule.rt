// A step rule: it gives each done set and next sheet a figure, or forbids that step.
ghost use Rattle.std.specs.Prelude.{◌≡◌, ℕ};
ghost use Rattle.sequences.specs.Steps.{Keeps, Meaning};

use crate::answer::Answer;
use sets::SheetSet;

pub trait Rule: Drop {
    // how many sheets it knows
    ghost count: { Self → ℕ };

    ghost asks: { Self → Meaning };

    fn sheets(&self) -> u8
        ensures value { result ≡ count self.now };

    // Consulting a rule alters nothing, so one question has one answer for ever.
    fn ask(&self, done: SheetSet, next: u8) -> Answer
        ensures answer { result.figure ≡ asks self.now done.bits next };

    ghost keeps: { (r : Self) → Keeps (count r) (asks r) };
}
