// Text, and the label rule of board images.
ghost use Rattle.std.specs.Prelude.{◌≡◌, ◌+◌, ◌≤◌, length};
ghost use Rattle.octets.specs.Label.{is_text, is_label_text, text_end, bad_label};
ghost use Rattle.octets.specs.Runs.{is_nothing};

use super::{byte_from, first_nonzero};

// Whether a byte is a character: 20h to 7Eh.
pub fn is_text(b: u8) -> bool
    ensures { result ≡ is_text b }
{
    if b < 0x20 {
        return false;
    }
    b <= 0x7E
}

// Whether a byte is a character of a label's text: any but '$'.
pub fn is_label_text(b: u8) -> bool
    ensures { result ≡ is_label_text b }
{
    if b == 0x24 {
        return false;
    }
    is_text(b)
}

// Whether the text of the label at a place is all of its sixteen bytes. No byte ends the loop, so that the compiler asks them at once.
fn all_text(s: &[u8], at: usize) -> bool
    requires { at + 16 ≤ length s.now }
    ensures { result ≡ is_nothing (text_end s.now at) }
{
    let mut all = true;
    for i in 0..16 {
        let text = is_label_text(s[at + i]);
        all = all && text;
    }
    all
}

// Where the text of the label at a place ends, as an offset, if it does before the sixteen bytes do.
fn text_end(s: &[u8], at: usize) -> Option<usize>
    ensures { result ≡ text_end s.now at }
{
    if at < s.len() && 16 <= s.len() - at && all_text(s, at) {
        return None;
    }
    for i in 0..16 {
        if !is_label_text(byte_from(s, at, i)) {
            return Some(i);
        }
    }
    None
}

// The bad byte of the label at a place.
pub fn bad_label(s: &[u8], at: usize) -> Option<usize>
    ensures { result ≡ bad_label s.now at }
{
    let i = text_end(s, at)?;
    if byte_from(s, at, i) == 0x24 {
        return first_nonzero(s, at, i + 1, 16);
    }
    Some(at + i)
}
