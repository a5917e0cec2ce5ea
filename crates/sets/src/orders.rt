// A set of orders, as rows are. Contracts speak of its number, `members`, and of its `room`, and of no field.
ghost use Rattle.std.specs.Prelude.{◌^◌, ◌<◌};

mod operations;

#[derive(Clone, Copy, Debug, PartialEq, Eq)]
pub struct OrderSet {
    bits: u64,
    ghost fits: { bits < 2 ^ 64 },
}
