// Rule 11: the fields of a known item, by the row of its tag.
ghost use Rattle.std.specs.Prelude.{◌≡◌, ◌<◌};
ghost use Rattle.chain.specs.First.{or_else};
ghost use Rattle.tiny_rules.specs.Rules.{is_major, bad_revision, bad_batch, bad_field};

use octets::label::is_text;
use octets::{byte_at, le16_at};
use tiny_layout::Shape;

// Whether a major is in range.
pub fn is_major(m: u8) -> bool
    ensures { result ≡ is_major m }
{
    m <= 0x63 || 0x80 <= m && m <= 0x99
}

// Rule 11 on major, minor and the two characters.
fn bad_revision(image: &[u8], start: usize) -> Option<usize>
    requires { start < 65536 }
    ensures { result ≡ bad_revision image.now start }
{
    let major = !is_major(byte_at(image, start + 2));
    let minor = 99 < byte_at(image, start + 3);
    let first = is_text(byte_at(image, start + 4));
    let second = is_text(byte_at(image, start + 5));
    let characters = (!(first && second)).then_some(start + 4);
    major
        .then_some(start + 2)
        .or(minor.then_some(start + 3).or(characters))
}

// Rule 11 on these and the batch.
fn bad_batched(image: &[u8], start: usize) -> Option<usize>
    requires { start < 65536 }
    ensures { result ≡ or_else (bad_revision image.now start) (bad_batch image.now start) }
{
    let batch = 9999 < le16_at(image, start + 6);
    bad_revision(image, start).or(batch.then_some(start + 6))
}

// Rule 11 on the data of an item, by the row of its tag.
pub fn bad_field(image: &[u8], shape: Shape, start: u16) -> Option<usize>
    ensures { result ≡ bad_field image.now shape start }
{
    match shape {
        Shape::Identity => bad_revision(image, start as usize),
        Shape::Batched => bad_batched(image, start as usize),
        Shape::Pool | Shape::Serial | Shape::Flags | Shape::Address | Shape::Other => None,
    }
}
