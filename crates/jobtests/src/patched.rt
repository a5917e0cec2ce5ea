// The worked job at another length and with some bytes changed.
use crate::cases::WORKED;
use faults::Layer;
use std::alloc::{AllocError, Global};

pub struct Patched {
    pub about: &'static str,
    pub bytes: usize,
    // offset and byte; what lies past the end is not changed
    pub changes: &'static [(usize, u8)],
    // the layer, the number and the place with which the file is refused, if it is
    pub refusal: Option<(Layer, u8, usize)>,
}

impl Patched {
    pub fn file(&self, heap: Global) -> Result<Vec<u8>, AllocError> {
        let mut file = WORKED.to_vec(heap)?;
        file.resize(self.bytes, 0)?;
        for (at, byte) in self.changes {
            if let Some(changed) = file.get_mut(*at) {
                *changed = *byte;
            }
        }
        Ok(file)
    }
}
