// The lines that say what a job is.
ghost use Rattle.job.specs.Jobs.{content_of};
ghost use Rattle.jobinfo.specs.Wording.{counts_line, job_text, labels_of, order_line, order_lines, sheet_line, sheet_lines};
ghost use Rattle.lines.specs.Lines.{spaced};
ghost use Rattle.std.specs.List.{flat_map};
ghost use Rattle.std.specs.Prelude.{◌≡◌, ◌++◌, IfOk};

use job::Job;
use lines::Text;
use std::alloc::AllocError;

// The whole job.
pub fn describe(text: Text, job: &Job) -> Result<Text, AllocError>
    ensures value { IfOk result (λ t. t ≡ text ++ job_text (content_of job.now)) }
{
    let text = counts_line(text, job)?;
    let text = sheet_lines(text, job)?;
    order_lines(text, job)
}

// How many sheets and orders there are.
fn counts_line(text: Text, job: &Job) -> Result<Text, AllocError>
    ensures value { IfOk result (λ t. t ≡ text ++ counts_line (content_of job.now)) }
{
    text.begin(b"job")?
        .number(usize::from(job.sheets()))?
        .number(usize::from(job.orders()))?
        .end()
}

fn sheet_lines(text: Text, job: &Job) -> Result<Text, AllocError>
    ensures value { IfOk result (λ t. t ≡ text ++ sheet_lines (content_of job.now)) }
{
    (0..job.sheets()).try_fold(text, |text, sheet| sheet_line(text, job, sheet))
}

// A sheet with the labels of the orders that it serves.
fn sheet_line(text: Text, job: &Job, sheet: u8) -> Result<Text, AllocError>
    ensures value { IfOk result (λ t. t ≡ text ++ sheet_line (content_of job.now) sheet) }
{
    let text = text.begin(b"sheet")?.number(usize::from(sheet))?;
    label_words(text, job, sheet)?.end()
}

fn label_words(text: Text, job: &Job, sheet: u8) -> Result<Text, AllocError>
    ensures value { IfOk result (λ t. t ≡ text ++ flat_map spaced (labels_of (content_of job.now) sheet)) }
{
    let row = job.row(sheet);
    (0..job.orders())
        .filter(|order| row.has(*order))
        .try_fold(text, |text, order| text.word(job.label(order)))
}

fn order_lines(text: Text, job: &Job) -> Result<Text, AllocError>
    ensures value { IfOk result (λ t. t ≡ text ++ order_lines (content_of job.now)) }
{
    (0..job.orders()).try_fold(text, |text, order| order_line(text, job, order))
}

// An order with its label and its due step.
fn order_line(text: Text, job: &Job, order: u16) -> Result<Text, AllocError>
    ensures value { IfOk result (λ t. t ≡ text ++ order_line (content_of job.now) order) }
{
    let text = text
        .begin(b"order")?
        .number(usize::from(order))?
        .word(job.label(order))?;
    match job.due(order) {
        Some(step) => text.number(usize::from(step))?.end(),
        None => text.word(b"none")?.end(),
    }
}
