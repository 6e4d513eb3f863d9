// The run: how many bytes an item has in it and in an image, its first bad item, and how many bytes its items take in an image.
ghost use Rattle.std.specs.Prelude.{◌≡◌, ◌<◌, length};
ghost use Rattle.tiny_writer.specs.Building.{laid_at, measured};
ghost use Rattle.tiny_writer.specs.Run.{run_size, bad_item};

use octets::{byte_at, byte_from};
use tiny_layout::{data_length, head_size};
use verdict::{Refusal, refused};

// Whether the item at a place has a length that is not its tag's, is of tag 01, or is cut short.
fn is_bad(items: &[u8], at: usize) -> bool
    requires { at < length items.now }
    ensures { result ≡ bad_item items.now at }
{
    let count = byte_from(items, at, 1);
    let wrong_length = count != data_length(items, at);
    let pool = byte_at(items, at) == 0x01;
    let cut_short = items.len() - at - 1 <= count as usize;
    wrong_length || pool || cut_short
}

// How many bytes the item at a place has in the run.
pub fn run_size(items: &[u8], at: usize) -> u16
    ensures { result ≡ run_size items.now at }
{
    2 + byte_from(items, at, 1) as u16
}

// How many bytes it has in an image.
pub fn laid_size(items: &[u8], at: usize) -> u16
    ensures { result ≡ length (laid_at items.now at) }
{
    head_size(byte_at(items, at)) as u16 + byte_from(items, at, 1) as u16
}

// How many bytes the items of a run take in an image; or the refusal by 46 at the number of the first bad one.
pub fn measure(items: &[u8]) -> Result<usize, Refusal>
    ensures { result ≡ measured items.now }
{
    let mut at = 0;
    let mut number = 0;
    let mut bytes = 0;
    // No `for` over a range: each item tells where the next one starts.
    while at < items.len() {
        if is_bad(items, at) {
            return refused(46, number);
        }
        bytes += laid_size(items, at) as usize;
        at += run_size(items, at) as usize;
        number += 1;
    }
    Ok(bytes)
}
