// Text in lines, as the programs print it: words with one space between, each line ended by a newline.
#![tactic(auto)]

pub mod refused;
pub mod text;

pub use refused::refused_line;
pub use text::Text;
