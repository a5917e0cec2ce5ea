// The one line that a program prints for a refusal.
ghost use Rattle.lines.specs.Lines.{refused_line};
ghost use Rattle.std.specs.Prelude.{◌≡◌, ◌++◌, IfOk};

use crate::text::Text;
use std::alloc::AllocError;

pub fn refused_line(text: Text, number: u8, place: usize) -> Result<Text, AllocError>
    ensures value { IfOk result (λ t. t ≡ text ++ refused_line number place) }
{
    text.begin(b"refused")?
        .number(usize::from(number))?
        .number(place)?
        .end()
}
