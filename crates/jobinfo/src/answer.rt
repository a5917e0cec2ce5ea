// From the bytes of the input to the bytes printed.
ghost use Rattle.jobfile.specs.Checks.{accepts};
ghost use Rattle.jobinfo.specs.Printing.{is_refusal, text_of};
ghost use Rattle.jobinfo.specs.Wording.{printed};
ghost use Rattle.std.specs.Prelude.{◌≡◌, not, IfOk};

use crate::describe::describe;
use faults::Fault;
use job::Job;
use lines::{Text, refused_line};
use std::alloc::{AllocError, Global};

// What is printed, as the file is taken or refused.
#[derive(Drop)]
pub enum Printed {
    Taken(Vec<u8>),
    Refused(Vec<u8>),
}

pub fn answer(heap: Global, input: Vec<u8>) -> Result<Printed, AllocError>
    ensures text { IfOk result (λ p. text_of p ≡ printed input.items) }
    ensures status { IfOk result (λ p. is_refusal p ≡ not (accepts input.items)) }
{
    let text = Text::new(heap);
    match Job::read(input) {
        Ok(job) => {
            let text = describe(text, &job)?;
            Ok(Printed::Taken(text.into_bytes()))
        }
        Err(fault) => {
            let text = refused_line(text, fault.number(), fault.place())?;
            Ok(Printed::Refused(text.into_bytes()))
        }
    }
}
