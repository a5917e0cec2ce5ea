// Why least-peak sequences are not counted with pairs of peak and count.
ghost use Rattle.objectives.specs.PeakPairs.{PairsFail};

// On a job of four sheets: the count that the table would give with such pairs, and how many there are.
pub fn pairs_of_peak_and_count() -> (u64, u64)
    ensures fail { PairsFail result.0 result.1 }
{
    (10, 12)
}
