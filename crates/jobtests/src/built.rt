// A file without gaps in which every sheet serves every order.
ghost use Rattle.std.specs.Prelude.{◌^◌, ◌<◌};

use faults::Layer;
use std::alloc::{AllocError, Global};

pub struct Built {
    pub sheets: u8,
    pub orders: u8,
    pub label_bytes: u8,
    // the layer, the number and the place with which the file is refused, if it is
    pub refusal: Option<(Layer, u8, usize)>,
}

impl Built {
    pub fn file(&self, heap: Global) -> Result<Vec<u8>, AllocError> {
        let mut file = Vec::new(heap);
        for field in [
            1,
            u32::from(self.sheets),
            u32::from(self.orders),
            12,
            self.records_at(),
            self.label_at(self.orders),
        ] {
            put(&mut file, field)?;
        }
        self.put_rows(&mut file)?;
        self.put_records(&mut file)?;
        self.put_labels(&mut file)?;
        Ok(file)
    }

    fn records_at(&self) -> u32
        ensures below { result < 2 ^ 12 }
    {
        12 + 8 * u32::from(self.sheets)
    }

    fn label_at(&self, order: u8) -> u32 {
        let labels_at = self.records_at() + 6 * u32::from(self.orders);
        labels_at + u32::from(order) * u32::from(self.label_bytes)
    }

    fn put_rows(&self, file: &mut Vec<u8>) -> Result<(), AllocError> {
        let row = if self.orders < 64 {
            (1u64 << self.orders) - 1
        } else {
            u64::MAX
        };
        for _ in 0..self.sheets {
            file.extend_from_slice(&row.to_le_bytes())?;
        }
        Ok(())
    }

    fn put_records(&self, file: &mut Vec<u8>) -> Result<(), AllocError> {
        for order in 0..self.orders {
            put(file, 0)?;
            put(file, self.label_at(order))?;
            put(file, u32::from(self.label_bytes))?;
        }
        Ok(())
    }

    // The label of an order is its number in two letters, filled up.
    fn put_labels(&self, file: &mut Vec<u8>) -> Result<(), AllocError> {
        for order in 0..self.orders {
            let end = file.len() + usize::from(self.label_bytes);
            file.push(b'A' + order / 16)?;
            file.push(b'A' + order % 16)?;
            file.resize(end, b'-')?;
        }
        Ok(())
    }
}

// A 16-bit field, the lowest byte first.
fn put(file: &mut Vec<u8>, field: u32) -> Result<(), AllocError> {
    file.extend_from_slice(&field.to_le_bytes()[..2])
}
