// Making sets of orders, and asking what is in them.
ghost use Rattle.sets.specs.Bits.{has, with_in, AllBelow, Empty};
ghost use Rattle.sets.specs.Bytes.{low_first};
ghost use Rattle.sets.specs.Orders.{members, room, room_bytes};
ghost use Rattle.std.specs.Prelude.{◌≡◌, ℕ, ◌^◌, ◌<◌, ◌&&◌, ◌||◌, take, Decides, count_by, ◌==◌, bit_and, bit_or, count_ones, nat_lt};
ghost use Rattle.std.specs.List.{range_with_len};

use super::OrderSet;
use crate::word;

impl OrderSet {
    pub fn empty() -> OrderSet
        ensures value { members result ≡ 0 }
    {
        OrderSet { bits: 0 }
    }

    // The set whose number has these bytes, the lowest first. Bytes for which there is no room are not read.
    pub fn from_le_bytes(bytes: &[u8]) -> OrderSet
        ensures value { members result ≡ low_first (take room_bytes bytes.now) }
    {
        let mut word = [0; 8];
        let size = bytes.len().min(word.len());
        word[..size].copy_from_slice(&bytes[..size]);
        OrderSet {
            bits: u64::from_le_bytes(word),
        }
    }

    pub fn has(self, order: u16) -> bool
        ensures value { result ≡ has (members self) order }
    {
        word::has(self.bits, order)
    }

    // The set with the order in it. An order for which there is no room is in no set.
    pub fn with(self, order: u16) -> OrderSet
        ensures value { members result ≡ with_in room (members self) order }
        ensures members { (j : ℕ) → has (members result) j ≡ (has (members self) j || (j == order && nat_lt order room)) }
    {
        OrderSet {
            bits: word::with(self.bits, order),
        }
    }

    pub fn union(self, other: OrderSet) -> OrderSet
        ensures value { members result ≡ bit_or (members self) (members other) }
        ensures members { (j : ℕ) → has (members result) j ≡ (has (members self) j || has (members other) j) }
    {
        OrderSet {
            bits: self.bits | other.bits,
        }
    }

    // How many orders are in both sets.
    pub fn common(self, other: OrderSet) -> u16
        ensures value { result ≡ count_ones (bit_and (members self) (members other)) }
        ensures counted { (m : ℕ) → members self < 2 ^ m → result ≡ count_by (λ j. has (members self) j && has (members other) j) (range_with_len 0 m) }
    {
        (self.bits & other.bits).count_ones() as u16
    }

    // Whether no order is in the set.
    pub fn is_empty(self) -> bool
        ensures value { result ≡ (members self == 0) }
        ensures members { Decides result (Empty (members self)) }
    {
        self.bits == 0
    }

    // Whether every order of the set is below the bound.
    pub fn is_below(self, bound: u16) -> bool
        ensures value { result ≡ nat_lt (members self) (2 ^ bound) }
        ensures members { Decides result (AllBelow (members self) bound) }
    {
        word::is_below(self.bits, bound)
    }
}
