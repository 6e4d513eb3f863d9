// What is shown of an item. These functions take any image and any place; of an accepted image, at the place of an item, they show what is there.
ghost use Rattle.std.specs.Prelude.{◌≡◌, ◌<◌, drop, Some};
ghost use Rattle.tiny_layout.specs.Pool.{pool_at};
ghost use Rattle.tiny.specs.Items.{identity_at, batched_at, pool_shown, fields_at, item_at};
ghost use Rattle.tiny.specs.Major.{major_text};

use super::{Batched, Identity, Item, PoolShown, ShownItem};
use kinds::Kinds;
use octets::{Span, byte_at, byte_from, bytes_at, le16_at};
use tiny_layout::{Pool, Shape, data_length, find_string, head_size, pool_at, string_count};

// A major as two characters.
pub fn major_text(m: u8) -> [u8; 2]
    ensures { result ≡ major_text m }
{
    if m < 0x80 {
        [b'0' + m / 10, b'0' + m % 10]
    } else {
        [b'0', b'A' + (m - 0x80)]
    }
}

// The identity whose data begin at a place.
fn identity_at(image: &[u8], pool: Pool, start: usize) -> Identity
    ensures { result ≡ identity_at image.now pool start }
{
    Identity {
        serial: find_string(image, pool, byte_at(image, start) as usize),
        part: find_string(image, pool, byte_from(image, start, 1) as usize),
        major: byte_from(image, start, 2),
        minor: byte_from(image, start, 3),
        characters: [byte_from(image, start, 4), byte_from(image, start, 5)],
    }
}

// The same with the batch.
fn batched_at(image: &[u8], pool: Pool, start: usize) -> Batched
    requires { start < 0x2_0000_0000 }
    ensures { result ≡ batched_at image.now pool start }
{
    Batched {
        identity: identity_at(image, pool, start),
        batch: le16_at(image, start + 6),
    }
}

// The part of an image that begins at a place; empty past the end.
fn part_from(image: &[u8], at: usize) -> &[u8]
    ensures { result.now ≡ drop at image.now }
{
    &image[at.min(image.len())..]
}

// What is shown of the pool at a place. Its strings are counted in the part of the image that begins with it: there its places fit in 16 bits.
fn pool_shown(image: &[u8], at: u32) -> PoolShown
    ensures { result ≡ pool_shown image.now (pool_at image.now (Some at)) }
{
    let place = at as usize;
    let part = part_from(image, place);
    PoolShown {
        count: string_count(part, pool_at(part, 0)),
        bytes: Span {
            place: place + head_size(byte_at(image, place)) as usize,
            length: data_length(image, place) as usize,
        },
    }
}

// The fields of an item, by the row of its tag.
fn fields_at(image: &[u8], pool: Pool, shape: Shape, at: u32) -> Item
    ensures { result ≡ fields_at image.now pool shape at }
{
    let start = at as usize + head_size(byte_at(image, at as usize)) as usize;
    match shape {
        Shape::Pool => Item::Pool(pool_shown(image, at)),
        Shape::Serial => Item::Serial(find_string(image, pool, byte_at(image, start) as usize)),
        Shape::Flags => Item::Flags(byte_at(image, start)),
        Shape::Address => Item::Address(bytes_at(image, start)),
        Shape::Identity => Item::Identity(identity_at(image, pool, start)),
        Shape::Batched => Item::Batched(batched_at(image, pool, start)),
        Shape::Other => Item::NotKnown,
    }
}

// The item at a place, where the strings are those of this pool.
pub fn item_at(image: &[u8], kinds: Kinds, pool: Pool, at: u32) -> ShownItem
    ensures { result ≡ item_at kinds image.now pool at }
{
    let tag = byte_at(image, at as usize);
    let item = if kinds.has_tag(tag) {
        fields_at(image, pool, Shape::of(tag), at)
    } else {
        Item::NotKnown
    };
    ShownItem {
        tag,
        place: at as usize,
        length: data_length(image, at as usize) as usize,
        item,
    }
}
