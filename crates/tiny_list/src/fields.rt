// What an item of a few bytes says, as text.
use console::show::{OrUndecodable, Quoted, Text};
use octets::Span;
use std::fmt;
use tiny::{Identity, major_text};

// A reference: its text, or that it is undecodable.
pub fn shown(image: &[u8], reference: Option<Span>) -> OrUndecodable<Text<'_>> {
    OrUndecodable(reference.map(|span| Text { image, span }))
}

// Serial, part, major, minor and the two characters of an item of an image.
#[derive(Clone, Copy)]
pub struct Product<'a> {
    pub image: &'a [u8],
    pub identity: Identity,
}

impl fmt::Display for Product<'_> {
    fn fmt<W: fmt::Write>(&self, f: &mut fmt::Formatter<W>) -> fmt::Result {
        let identity = self.identity;
        let serial = shown(self.image, identity.serial);
        let part = shown(self.image, identity.part);
        write!(f, "identity serial {serial} part {part}")?;
        let [tens, ones] = major_text(identity.major);
        write!(f, " major {}{}", tens as char, ones as char)?;
        let minor = identity.minor;
        let [first, second] = identity.characters;
        write!(
            f,
            " minor {minor:02} characters \"{}{}\"",
            Quoted(first),
            Quoted(second)
        )
    }
}
