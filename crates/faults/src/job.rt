// Why a job file holds no job that can be planned.
ghost use Rattle.faults.specs.Refusals.{job_refusal};
ghost use Rattle.faults.specs.declared.job.JobFault.TheVariants.{File};
ghost use Rattle.std.specs.Prelude.{◌≡◌};

use crate::fault::Fault;
use crate::file::FileFault;
use crate::refusal::Refusal;

#[derive(Clone, Copy, Debug, PartialEq, Eq)]
pub enum JobFault {
    // the bytes are no job file
    File(FileFault),
    // the sheet serves no order
    EmptyRow { sheet: u16 },
    // the sheet serves an order that the job does not have
    StrangeOrder { sheet: u16 },
    // no sheet serves the order
    Unserved { order: u16 },
    // the order is due after the last step
    DueTooLate { order: u16 },
    // the label is empty, too long, or not between the header and the end
    LabelOutside { order: u16 },
    // the label has a byte that cannot be printed
    LabelUnprintable { order: u16 },
    // an earlier order has the same label
    LabelTaken { order: u16 },
}

impl From<FileFault> for JobFault {
    ghost from_gives = { λ cause r. r ≡ File cause };

    fn from(cause: FileFault) -> JobFault {
        JobFault::File(cause)
    }
}

impl Fault for JobFault {
    ghost refusal_of = { job_refusal };

    fn refusal(self) -> Refusal {
        match self {
            JobFault::File(fault) => fault.refusal(),
            JobFault::EmptyRow { sheet } => Refusal::in_job(11, sheet),
            JobFault::StrangeOrder { sheet } => Refusal::in_job(12, sheet),
            JobFault::Unserved { order } => Refusal::in_job(13, order),
            JobFault::DueTooLate { order } => Refusal::in_job(14, order),
            JobFault::LabelOutside { order } => Refusal::in_job(15, order),
            JobFault::LabelUnprintable { order } => Refusal::in_job(16, order),
            JobFault::LabelTaken { order } => Refusal::in_job(17, order),
        }
    }
}
