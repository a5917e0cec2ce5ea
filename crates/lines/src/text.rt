// A text that grows word by word. Where memory fails, the text is dropped and the error is all that is left.
ghost use Rattle.std.specs.Prelude.{◌≡◌, [], ◌∷◌, ◌++◌, IfOk, decimal};

use std::alloc::{AllocError, Global};
use std::marker::Model;

const SPACE: u8 = b' ';

const NEWLINE: u8 = b'\n';

#[derive(Drop)]
pub struct Text {
    bytes: Vec<u8>,
}

impl Model for Text {
    ghost use Rattle.std.specs.Prelude.{ℕ, List};

    ghost Value = { List ℕ };

    ghost view = { λ text. text.bytes.items };
}

impl Text {
    pub fn new(heap: Global) -> Text
        ensures value { result ≡ [] }
    {
        Text {
            bytes: Vec::new(heap),
        }
    }

    // The first word of a line.
    pub fn begin(mut self, word: &[u8]) -> Result<Text, AllocError>
        ensures value { IfOk result (λ t. t ≡ self ++ word.now) }
    {
        self.bytes.extend_from_slice(word)?;
        Ok(self)
    }

    // One word more in the line.
    pub fn word(self, word: &[u8]) -> Result<Text, AllocError>
        ensures value { IfOk result (λ t. t ≡ self ++ (32 ∷ word.now)) }
    {
        self.byte(SPACE)?.begin(word)
    }

    // A number as one word more.
    pub fn number(self, n: usize) -> Result<Text, AllocError>
        ensures value { IfOk result (λ t. t ≡ self ++ (32 ∷ decimal n)) }
    {
        let digits = n.to_string(*self.bytes.allocator())?;
        self.word(digits.as_bytes())
    }

    // The end of the line.
    pub fn end(self) -> Result<Text, AllocError>
        ensures value { IfOk result (λ t. t ≡ self ++ (10 ∷ [])) }
    {
        self.byte(NEWLINE)
    }

    fn byte(mut self, byte: u8) -> Result<Text, AllocError>
        ensures value { IfOk result (λ t. t ≡ self ++ (byte ∷ [])) }
    {
        self.bytes.push(byte)?;
        Ok(self)
    }

    pub fn into_bytes(self) -> Vec<u8>
        ensures value { result.items ≡ self }
    {
        let Text { bytes } = self;
        bytes
    }
}
