// Names, labels, signatures and spans as they are shown.
use console::request::first_of;
use console::show::{Place, Quoted};
use octets::Span;
use std::fmt;

// What follows the fields, by place and length.
#[derive(Clone, Copy)]
pub struct Part(pub Span);

impl fmt::Display for Part {
    fn fmt<W: fmt::Write>(&self, f: &mut fmt::Formatter<W>) -> fmt::Result {
        let place = self.0.place;
        let length = self.0.length;
        write!(f, "at {} length {length}", Place(place))
    }
}

// Bytes without the zeros at their end.
fn trimmed(bytes: &[u8]) -> &[u8] {
    let mut rest = bytes;
    while let [front @ .., 0] = rest {
        rest = front;
    }
    rest
}

// A quoted text.
#[derive(Clone, Copy)]
struct QuotedText<'a>(&'a [u8]);

impl fmt::Display for QuotedText<'_> {
    fn fmt<W: fmt::Write>(&self, f: &mut fmt::Formatter<W>) -> fmt::Result {
        f.write_str("\"")?;
        for c in self.0 {
            write!(f, "{}", Quoted(*c))?;
        }
        f.write_str("\"")
    }
}

// A name: its text, without the zeros at its end.
#[derive(Clone, Copy)]
pub struct Name<'a>(pub &'a [u8]);

impl fmt::Display for Name<'_> {
    fn fmt<W: fmt::Write>(&self, f: &mut fmt::Formatter<W>) -> fmt::Result {
        write!(f, "{}", QuotedText(trimmed(self.0)))
    }
}

// A label: its text, without '$' and what is behind it.
#[derive(Clone, Copy)]
pub struct Label<'a>(pub &'a [u8]);

impl fmt::Display for Label<'_> {
    fn fmt<W: fmt::Write>(&self, f: &mut fmt::Formatter<W>) -> fmt::Result {
        let n = first_of(self.0, b'$');
        write!(f, "{}", QuotedText(&self.0[..n]))
    }
}

// The eight bytes of a signature, without the zeros at its end. A blank is told by its number.
#[derive(Clone, Copy)]
pub struct Signature(pub u64);

impl fmt::Display for Signature {
    fn fmt<W: fmt::Write>(&self, f: &mut fmt::Formatter<W>) -> fmt::Result {
        for c in trimmed(&self.0.to_le_bytes()) {
            match *c {
                b' ' => f.write_str("\\x20")?,
                c => write!(f, "{}", Quoted(c))?,
            }
        }
        Ok(())
    }
}
