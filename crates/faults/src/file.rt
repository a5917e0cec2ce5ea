// Why a byte string is no job file: what its header says, and where its parts lie.
ghost use Rattle.faults.specs.Refusals.{file_refusal};

use crate::fault::Fault;
use crate::refusal::Refusal;

#[derive(Clone, Copy, Debug, PartialEq, Eq)]
pub enum FileFault {
    // fewer bytes than a header has
    Short { bytes: usize },
    // an edition that the reader does not know
    Edition { edition: u16 },
    // the length in the header is not the number of bytes
    Length { bytes: usize },
    // no sheet, or too many
    Sheets { sheets: u16 },
    // no order, or too many
    Orders { orders: u16 },
    // the rows do not lie between the header and the end
    RowsOutside,
    // the order records do not lie between the header and the end
    RecordsOutside,
}

impl Fault for FileFault {
    ghost refusal_of = { file_refusal };

    fn refusal(self) -> Refusal {
        match self {
            FileFault::Short { bytes } => Refusal::in_file(1, bytes),
            FileFault::Edition { edition } => Refusal::in_file(2, usize::from(edition)),
            FileFault::Length { bytes } => Refusal::in_file(3, bytes),
            FileFault::Sheets { sheets } => Refusal::in_file(4, usize::from(sheets)),
            FileFault::Orders { orders } => Refusal::in_file(5, usize::from(orders)),
            FileFault::RowsOutside => Refusal::in_file(6, 6),
            FileFault::RecordsOutside => Refusal::in_file(6, 8),
        }
    }
}
