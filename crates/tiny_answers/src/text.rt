// Strings, as they are shown.
use console::show::{OrUndecodable, Text};
use octets::Span;
use std::fmt;

// A string of an image: two hexadecimal digits for each character.
#[derive(Clone, Copy)]
pub struct HexText<'a>(Text<'a>);

impl fmt::Display for HexText<'_> {
    fn fmt<W: fmt::Write>(&self, f: &mut fmt::Formatter<W>) -> fmt::Result {
        f.write_str("text ")?;
        for number in 0..self.0.span.length {
            write!(f, "{:02X}", self.0.character(number))?;
        }
        Ok(())
    }
}

// What a reference gives.
pub fn shown(image: &[u8], reference: Option<Span>) -> OrUndecodable<HexText<'_>> {
    OrUndecodable(reference.map(|span| HexText(Text { image, span })))
}
