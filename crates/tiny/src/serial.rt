// The serial that gives the name: the only known item of tag 10.
ghost use Rattle.std.specs.Prelude.{◌≡◌, Err, Some};
ghost use Rattle.chain.specs.Keep.{only};
ghost use Rattle.tiny.specs.Answers.{serials, copied, name_in};

use super::Item;
use super::fields::item_at;
use kinds::Kinds;
use octets::{Span, byte_from};
use tiny_layout::next_place;
use tiny_rules::items::first_known;
use tiny_rules::pool_of;
use verdict::{Refusal, refused};

// 44: there is not exactly one serial, or its text cannot be told.
const NO_NAME: Refusal = Refusal {
    number: 44,
    place: 0,
};

// The place of the only known item of tag 10; nothing if there is none, or more.
fn only_serial(image: &[u8], kinds: Kinds) -> Option<usize>
    ensures { result ≡ only (serials kinds image.now) }
{
    let at = first_known(image, kinds, 0x10, 3)?;
    let after = next_place(image, at as u8) as usize;
    first_known(image, kinds, 0x10, after)
        .is_none()
        .then_some(at)
}

// A text to the front of a lent buffer, its end mark cleared; 43 if the buffer is too short.
fn copy_text(image: &[u8], span: Span, buffer: &mut [u8]) -> Result<usize, Refusal>
    ensures { (result, buffer.new) ≡ copied image.now buffer.old (Some span) }
{
    if buffer.len() < span.length {
        return refused(43, 0);
    }
    for i in 0..span.length {
        buffer[i] = byte_from(image, span.place, i) % 128;
    }
    Ok(span.length)
}

// The name of an accepted image.
pub fn name_in(image: &[u8], kinds: Kinds, buffer: &mut [u8]) -> Result<usize, Refusal>
    ensures { (result, buffer.new) ≡ name_in kinds image.now buffer.old }
{
    let at = only_serial(image, kinds).ok_or(NO_NAME)?;
    let shown = item_at(image, kinds, pool_of(image, kinds), at as u32);
    let Item::Serial(Some(span)) = shown.item else {
        return Err(NO_NAME);
    };
    copy_text(image, span, buffer)
}
