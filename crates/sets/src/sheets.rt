// A set of sheets, as done sets are: 32 bits, bit p for sheet p.
ghost use Rattle.sets.specs.Bits.{has, with_in, without, AllBelow};
ghost use Rattle.std.specs.Prelude.{◌≡◌, ℕ, ◌^◌, ◌<◌, not, ◌&&◌, ◌||◌, Decides, count_by, ◌==◌, count_ones, nat_lt};
ghost use Rattle.std.specs.List.{range_with_len};

use crate::word;

// How many sheets a set has room for.
const ROOM: u8 = 32;

#[derive(Clone, Copy, Debug, PartialEq, Eq)]
pub struct SheetSet {
    pub bits: u32,
}

impl SheetSet {
    pub fn has(self, sheet: u8) -> bool
        ensures value { result ≡ has self.bits sheet }
    {
        word::has(u64::from(self.bits), u16::from(sheet))
    }

    // The set with the sheet in it. A sheet of 32 or above is in no set.
    pub fn with(self, sheet: u8) -> SheetSet
        ensures value { result.bits ≡ with_in 32 self.bits sheet }
        ensures members { (p : ℕ) → has result.bits p ≡ (has self.bits p || (p == sheet && nat_lt sheet 32)) }
    {
        if sheet >= ROOM {
            return self;
        }
        SheetSet {
            bits: word::with(u64::from(self.bits), u16::from(sheet)) as u32,
        }
    }

    pub fn without(self, sheet: u8) -> SheetSet
        ensures value { result.bits ≡ without self.bits sheet }
        ensures members { (p : ℕ) → has result.bits p ≡ (has self.bits p && not (p == sheet)) }
    {
        if !self.has(sheet) {
            return self;
        }
        SheetSet {
            bits: self.bits - (1 << sheet),
        }
    }

    // How many sheets the set has.
    pub fn count(self) -> u8
        ensures value { result ≡ count_ones self.bits }
        ensures counted { (n : ℕ) → self.bits < 2 ^ n → result ≡ count_by (has self.bits) (range_with_len 0 n) }
    {
        self.bits.count_ones() as u8
    }

    // Whether every sheet of the set is below the bound.
    pub fn is_below(self, bound: u8) -> bool
        ensures value { result ≡ nat_lt self.bits (2 ^ bound) }
        ensures members { Decides result (AllBelow self.bits bound) }
    {
        word::is_below(u64::from(self.bits), u16::from(bound))
    }
}
