// Writes tiny images from a run of items and a pool. The image is built from the front in a block of 255 bytes: header, items, pool, check.

#![tactic(auto)]

ghost use mathlib.Core.List.{◌++◌, flatten};
ghost use Rattle.std.specs.Option.{option_copied};
ghost use Rattle.std.specs.Prelude.{◌≡◌, ◌+◌, ◌≤◌, length, take, None};
ghost use Rattle.octets.specs.Put.{Holds};
ghost use Rattle.tiny_writer.specs.Building.{laid_at, laid_from, pool_bytes, fitting};
ghost use Rattle.tiny_writer.specs.Image.{parts, pool_items, image_length, image};
ghost use Rattle.tiny_writer.specs.Run.{run_size, rule46};
ghost use Rattle.tiny_writer.specs.Written.{written};

use kinds::Kinds;
use octets::{byte_at, byte_from, put_at};
use run::{laid_size, measure, run_size};
use tiny_layout::head_size;
use tiny_rules::judge;
use verdict::{Refusal, keeps};

mod run;

// 40: the image would have more than 255 bytes.
const TOO_LONG: Refusal = Refusal {
    number: 40,
    place: 0,
};

// The total length of an image with so many bytes of items and this pool, where it is at most 255.
fn total_length(bytes: usize, pool: Option<&[u8]>) -> Option<u8>
    ensures { result ≡ fitting (bytes + pool_bytes (option_copied pool.entry) + 4) }
{
    let pool_bytes = match pool {
        Some(data) => 2 + data.len(),
        None => 0,
    };
    let length = bytes.saturating_add(pool_bytes).saturating_add(4);
    u8::try_from(length).ok()
}

// The item at a place, put into an image from place `to` on.
fn lay_item(items: &[u8], at: usize, to: usize, image: &mut [u8])
    requires { (at + run_size items.now at ≤ length items.now) × (to + length (laid_at items.now at) ≤ length image.old) }
    ensures { Holds image.new (to + length (laid_at items.now at)) (take to image.old ++ laid_at items.now at) (length image.old) }
{
    let head = head_size(byte_at(items, at)) as usize;
    let count = byte_from(items, at, 1) as usize;
    let start = at + 2;
    put_at(&items[at..at + head], to, image);
    put_at(&items[start..start + count], to + head, image);
}

// The items of a run without a bad one, put into an image of 255 bytes from place 3 on; answers where they end there.
fn lay_run(items: &[u8], image: &mut [u8]) -> usize
    requires { (rule46 items.now ≡ None) × (3 + length (laid_from items.now 0) ≤ 255) × (length image.old ≡ 255) }
    ensures { (result ≡ 3 + length (laid_from items.now 0)) × Holds image.new result (take 3 image.old ++ laid_from items.now 0) 255 }
{
    let mut at = 0;
    let mut to = 3;
    // No `for` over a range: each item tells where the next one starts.
    while at < items.len() {
        lay_item(items, at, to, image);
        to += laid_size(items, at) as usize;
        at += run_size(items, at) as usize;
    }
    to
}

// The pool, if there is one, put as an item from place `to` on.
fn lay_pool(pool: Option<&[u8]>, to: usize, image: &mut [u8])
    requires { (to + length (flatten (pool_items (option_copied pool))) ≤ 255) × (length image.old ≡ 255) }
    ensures { Holds image.new (to + length (flatten (pool_items (option_copied pool.entry)))) (take to image.old ++ flatten (pool_items (option_copied pool.entry))) 255 }
{
    if let Some(data) = pool {
        put_at(&[0x01, data.len() as u8], to, image);
        put_at(data, to + 2, image);
    }
}

// The image of `length` bytes at the front of a block.
fn built(items: &[u8], pool: Option<&[u8]>, length: u8) -> [u8; 255]
    requires { (rule46 items.now ≡ None) × (image_length (parts items.now (option_copied pool)) ≡ length) }
    ensures { Holds result length (image (parts items.now (option_copied pool.entry))) 255 }
{
    let mut image = [0u8; 255];
    put_at(&[0x56, 0x02, length], 0, &mut image);
    let to = lay_run(items, &mut image);
    lay_pool(pool, to, &mut image);
    let end = length as usize - 1;
    image[end] = crc::crc8::crc8(&image[..end]);
    image
}

// Writes the image of these items and, where there is one, of this pool to the front of a lent buffer: its length; or the refusal, and then
// no byte is changed. An item is its tag, its length byte and its data; the pool is its data.
pub fn write(items: &[u8], pool: Option<&[u8]>, buffer: &mut [u8]) -> Result<usize, Refusal>
    ensures { (result, buffer.new) ≡ written (parts items.now (option_copied pool.entry)) buffer.old }
{
    let bytes = measure(items)?;
    let length = total_length(bytes, pool).ok_or(TOO_LONG)?;
    let n = length as usize;
    keeps(41, (buffer.len() < n).then_some(0))?;
    let block = built(items, pool, length);
    let image = &block[..n];
    judge(image, Kinds::FULL)?;
    put_at(image, 0, buffer);
    Ok(n)
}
