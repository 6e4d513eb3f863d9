// The list of entries. All that `list` decides is decided by the functions before it.
ghost use Rattle.std.specs.Prelude.{◌≡◌};
ghost use Rattle.reader.specs.Entries.{entry_at};
ghost use Rattle.reader.specs.Formats.{judged};
ghost use Rattle.reader.specs.Answers.{list_answer, list_of};
ghost use Rattle.reader.specs.declared.Format.{Format};

use super::layout::{first_place, go_on, items_end};
use super::{Entry, Format, judge};
use board_layout::{head_at, is_known, shape_of};
use kinds::Kinds;
use octets::byte_at;
use tiny_layout::data_length;
use verdict::{Refusal, refused};

// The entry of the item at a place of a tiny image.
fn tiny_entry(image: &[u8], kinds: Kinds, at: u32) -> Entry
    ensures { result ≡ entry_at Format.Tiny kinds image.now at }
{
    let place = at as usize;
    let tag = byte_at(image, place);
    Entry {
        kind: tag as u64,
        place,
        length: data_length(image, place) as usize,
        known: kinds.has_tag(tag),
    }
}

// The entry of the structure at a place of a board image.
fn board_entry(image: &[u8], kinds: Kinds, at: u32) -> Entry
    ensures { result ≡ entry_at Format.Board kinds image.now at }
{
    let head = head_at(image, at);
    Entry {
        kind: head.signature,
        place: at as usize,
        length: head.length.saturating_sub(16) as usize,
        known: is_known(kinds, shape_of(head.signature, head.major)),
    }
}

// The entry of the item at a place.
fn entry_at(format: Format, image: &[u8], kinds: Kinds, at: u32) -> Entry
    ensures { result ≡ entry_at format kinds image.now at }
{
    match format {
        Format::Tiny => tiny_entry(image, kinds, at),
        Format::Board => board_entry(image, kinds, at),
    }
}

// What is answered for a lent list of this many entries.
fn list_answer(format: Format, image: &[u8], kinds: Kinds, room: usize) -> Result<usize, Refusal>
    ensures { result ≡ list_answer room (judged format kinds image.now) }
{
    let count = judge(format, image, kinds)?;
    if room < count {
        return refused(43, 0);
    }
    Ok(count)
}

// The list: an entry for each item of an accepted image, from the front of the lent list on; the rest stays. 43 where it is too short.
pub fn list(format: Format, image: &[u8], kinds: Kinds, out: &mut [Entry]) -> Result<usize, Refusal>
    ensures { (result, out.new) ≡ list_of format kinds image.now out.old }
{
    let count = list_answer(format, image, kinds, out.len())?;
    let end = items_end(format, image);
    let mut at = first_place(format);
    for i in 0..count {
        out[i] = entry_at(format, image, kinds, at);
        at = go_on(format, image, end, at);
    }
    Ok(count)
}
