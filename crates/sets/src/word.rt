// A set as one word of 64 bits: what sets of sheets and sets of orders have in common.
ghost use Rattle.sets.specs.Bits.{has, with_in, AllBelow};
ghost use Rattle.std.specs.Prelude.{◌≡◌, ℕ, ◌^◌, ◌<◌, ◌&&◌, ◌||◌, ◌==◌, nat_lt, Decides};

// A number below this can be in a set.
const WIDTH: u16 = 64;

pub(crate) fn has(bits: u64, p: u16) -> bool
    ensures value { result ≡ has bits p }
{
    p < WIDTH && (bits >> p) % 2 == 1
}

// The set with p in it. A number for which a word has no room is in no set.
pub(crate) fn with(bits: u64, p: u16) -> u64
    ensures value { result ≡ with_in 64 bits p }
    ensures members { (q : ℕ) → has result q ≡ (has bits q || (q == p && nat_lt p 64)) }
    ensures fits { (room : ℕ) → bits < 2 ^ room → p < room → result < 2 ^ room }
{
    if p >= WIDTH || has(bits, p) {
        return bits;
    }
    bits + (1 << p)
}

// Whether every member is below the bound.
pub(crate) fn is_below(bits: u64, bound: u16) -> bool
    ensures value { result ≡ nat_lt bits (2 ^ bound) }
    ensures members { Decides result (AllBelow bits bound) }
{
    bound >= WIDTH || bits >> bound == 0
}
