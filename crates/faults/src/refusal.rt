// What a refusal says: which check fails, in which layer, and at which place.
ghost use Rattle.faults.specs.Refusals.{in_file, in_job};
ghost use Rattle.std.specs.Prelude.{◌≡◌};

use crate::layer::Layer;

#[derive(Clone, Copy, Debug, PartialEq, Eq)]
pub struct Refusal {
    pub number: u8,
    pub layer: Layer,
    pub place: usize,
}

impl Refusal {
    pub(crate) fn in_file(number: u8, place: usize) -> Refusal
        ensures value { result ≡ in_file number place }
    {
        Refusal {
            number,
            layer: Layer::File,
            place,
        }
    }

    pub(crate) fn in_job(number: u8, place: u16) -> Refusal
        ensures value { result ≡ in_job number place }
    {
        Refusal {
            number,
            layer: Layer::Job,
            place: usize::from(place),
        }
    }
}
