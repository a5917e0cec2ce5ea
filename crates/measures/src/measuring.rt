// Peak, spread and lateness of a sequence.
ghost use Rattle.job.specs.Jobs.{content_of};
ghost use Rattle.measures.specs.Measured.{measured};
ghost use Rattle.sequences.specs.JobCosts.{open_of, peak_of, spread_of, lateness_of};
ghost use Rattle.sequences.specs.Stacks.{serving, first, last, is_open, span, late};
ghost use Rattle.sets.specs.RowLists.{rows_of};
ghost use Rattle.std.specs.Prelude.{◌≡◌, ◌≤◌, None, length, slice_index_or};

use crate::naming::is_sequence;
use crate::stacks::Stack;
use job::Job;
use sets::Rows;

#[derive(Clone, Copy, Debug, PartialEq, Eq)]
pub struct Measures {
    pub peak: u16,
    pub spread: u32,
    pub lateness: u32,
}

// What a sequence costs; nothing where the list does not name each sheet of the job exactly once.
pub fn measure(job: &Job, list: &[u8]) -> Option<Measures>
    ensures value { result ≡ measured (content_of job.now) list.now }
{
    if !is_sequence(job.sheets(), list) {
        return None;
    }
    let sequence = Sequence {
        job,
        rows: job.rows(),
        sheets: list,
    };
    Some(Measures {
        peak: sequence.peak(),
        spread: sequence.spread(),
        lateness: sequence.lateness(),
    })
}

// A sequence of a job's sheets, with the job's rows.
#[derive(Drop)]
struct Sequence<'a> {
    job: &'a Job,
    rows: Rows,
    sheets: &'a [u8],
    ghost of_job: { rows_of rows ≡ (content_of job.now).rows },
    ghost few: { length sheets.now ≤ 16 },
}

impl Sequence<'_> {
    fn peak(&self) -> u16
        ensures value { result ≡ peak_of (content_of self.now.job.now) self.now.sheets.now }
    {
        (1..self.sheets.len() + 1).fold(0, |peak, step| peak.max(self.open_orders(step)))
    }

    // How many orders are open in a step.
    fn open_orders(&self, step: usize) -> u16
        ensures value { result ≡ open_of (content_of self.now.job.now) self.now.sheets.now step }
    {
        (0..self.job.orders())
            .filter(|&order| self.is_open(order, step))
            .count() as u16
    }

    fn spread(&self) -> u32
        ensures value { result ≡ spread_of (content_of self.now.job.now) self.now.sheets.now }
    {
        (0..self.job.orders()).map(|order| self.span(order)).sum()
    }

    fn lateness(&self) -> u32
        ensures value { result ≡ lateness_of (content_of self.now.job.now) self.now.sheets.now }
    {
        (0..self.job.orders()).map(|order| self.late(order)).sum()
    }

    fn is_open(&self, order: u16, step: usize) -> bool
        ensures value { result ≡ is_open (serving (content_of self.now.job.now).rows order) self.now.sheets.now step }
    {
        self.stack(order).is_open(step)
    }

    // In how many steps an order's stack is open.
    fn span(&self, order: u16) -> u32
        ensures value { result ≡ span (serving (content_of self.now.job.now).rows order) self.now.sheets.now }
        ensures few { result ≤ 16 }
    {
        self.stack(order).span() as u32
    }

    // How many steps after its due step, if it has one, an order is finished.
    fn late(&self, order: u16) -> u32
        ensures value { result ≡ late (slice_index_or (content_of self.now.job.now).dues order None) (last (serving (content_of self.now.job.now).rows order) self.now.sheets.now) }
        ensures few { result ≤ 16 }
    {
        let last = self.stack(order).last;
        self.job
            .due(order)
            .map_or(0, |due| last.saturating_sub(usize::from(due))) as u32
    }

    fn stack(&self, order: u16) -> Stack
        ensures first { result.first ≡ first (serving (content_of self.now.job.now).rows order) self.now.sheets.now }
        ensures last { result.last ≡ last (serving (content_of self.now.job.now).rows order) self.now.sheets.now }
        ensures within { result.last ≤ 16 }
    {
        Stack::of(&self.rows, self.sheets, order)
    }
}
