// How bytes and places are written: each type here shows what it holds in one way.
ghost use Rattle.std.specs.Prelude.{◌≡◌, ◌+◌, ◌%◌, Some};
ghost use Rattle.console.specs.Show.{place_text};
ghost use Rattle.octets.specs.Bytes.{byte};

use octets::label::is_text;
use octets::{Span, byte_from};
use std::fmt;

// Bytes, two hexadecimal digits each.
#[derive(Clone, Copy)]
pub struct Hex<'a>(pub &'a [u8]);

impl fmt::Display for Hex<'_> {
    fn fmt<W: fmt::Write>(&self, f: &mut fmt::Formatter<W>) -> fmt::Result {
        for b in self.0 {
            write!(f, "{b:02X}")?;
        }
        Ok(())
    }
}

// Six bytes with colons between them.
#[derive(Clone, Copy)]
pub struct Address(pub [u8; 6]);

impl fmt::Display for Address {
    fn fmt<W: fmt::Write>(&self, f: &mut fmt::Formatter<W>) -> fmt::Result {
        for (i, b) in self.0.iter().enumerate() {
            if 0 < i {
                f.write_str(":")?;
            }
            write!(f, "{b:02X}")?;
        }
        Ok(())
    }
}

// A byte of a quoted text: a quotation mark or a backslash has a backslash in front, and what is no character is told by its number.
#[derive(Clone, Copy)]
pub struct Quoted(pub u8);

impl fmt::Display for Quoted {
    fn fmt<W: fmt::Write>(&self, f: &mut fmt::Formatter<W>) -> fmt::Result {
        let c = self.0;
        if !is_text(c) {
            return write!(f, "\\x{c:02X}");
        }
        if c == b'"' || c == b'\\' {
            f.write_str("\\")?;
        }
        f.write_char(c as char)
    }
}

// A place: decimal, and hexadecimal in parentheses.
#[derive(Clone, Copy)]
pub struct Place(pub usize);

impl fmt::Display for Place {
    ghost output = { λ p. Some (place_text p.0) };

    fn fmt<W: fmt::Write>(&self, f: &mut fmt::Formatter<W>) -> fmt::Result {
        let place = self.0;
        write!(f, "{place} ({place:X}h)")
    }
}

// A string of an image.
#[derive(Clone, Copy)]
pub struct Text<'a> {
    pub image: &'a [u8],
    pub span: Span,
}

impl Text<'_> {
    // The character of a number, counted from 0: without the end mark, if it has one.
    pub fn character(&self, number: usize) -> u8
        ensures { result ≡ byte self.now.image.now (self.now.span.place + number) % 128 }
    {
        byte_from(self.image, self.span.place, number) % 128
    }
}

impl fmt::Display for Text<'_> {
    fn fmt<W: fmt::Write>(&self, f: &mut fmt::Formatter<W>) -> fmt::Result {
        f.write_str("\"")?;
        for number in 0..self.span.length {
            write!(f, "{}", Quoted(self.character(number)))?;
        }
        f.write_str("\"")
    }
}

// What a reference gives, or that it is undecodable.
#[derive(Clone, Copy)]
pub struct OrUndecodable<T>(pub Option<T>);

impl<T: fmt::Display> fmt::Display for OrUndecodable<T> {
    fn fmt<W: fmt::Write>(&self, f: &mut fmt::Formatter<W>) -> fmt::Result {
        match &self.0 {
            Some(shown) => shown.fmt(f),
            None => f.write_str("undecodable"),
        }
    }
}
