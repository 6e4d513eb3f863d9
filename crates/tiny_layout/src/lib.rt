// The layout of a tiny image: items lie end to end, and in a pool strings lie end to end.
// Every public function is total: a byte past the end of the image reads as 0.

#![tactic(auto)]

ghost use Rattle.std.specs.Prelude.{◌≡◌, ◌<◌, length, Some};
ghost use Rattle.chain.specs.Nth.{nth};
ghost use Rattle.tiny_layout.specs.Layout.{head_size, data_length, size, next, check_place, items};
ghost use Rattle.tiny_layout.specs.Pool.{pool_at};
ghost use Rattle.tiny_layout.specs.Strings.{string_end, strings, texts, span_at, reference};
ghost use Rattle.tiny_layout.specs.Tags.{shape_of, index_count};

use chain::{count_along, place_of};
use octets::{Span, byte_at, byte_from};

// What the data of an item are: a row of the paper's table.
#[derive(Clone, Copy)]
pub enum Shape {
    Pool,
    Serial,
    Flags,
    Address,
    Identity,
    Batched,
    Other,
}

// The data of a pool: from their first byte up to their end.
#[derive(Clone, Copy)]
pub struct Pool {
    pub from: u16,
    pub to: u16,
}

// A reference to a string: its text, by where it lies in the image, or none where it is undecodable.
pub type Reference = Option<Span>;

impl Shape {
    // The shape of a tag's data.
    pub fn of(tag: u8) -> Shape
        ensures { result ≡ shape_of tag }
    {
        match tag {
            0x01 => Shape::Pool,
            0x10 => Shape::Serial,
            0x11 => Shape::Flags,
            0x60 => Shape::Address,
            0x61 => Shape::Identity,
            0x62 => Shape::Identity,
            0x80 => Shape::Batched,
            0x81 => Shape::Batched,
            _ => Shape::Other,
        }
    }

    // How many string indexes the data begin with.
    pub fn index_count(self) -> u8
        ensures { result ≡ index_count self }
    {
        match self {
            Shape::Serial => 1,
            Shape::Identity | Shape::Batched => 2,
            Shape::Pool | Shape::Flags | Shape::Address | Shape::Other => 0,
        }
    }
}

// How many bytes come before an item's data: its tag, and the length byte of a long tag.
pub fn head_size(tag: u8) -> u8
    ensures { result ≡ head_size tag }
{
    if tag / 16 == 0 { 2 } else { 1 }
}

// How many data bytes the item at a place has.
pub fn data_length(image: &[u8], at: usize) -> u8
    ensures { result ≡ data_length image.now at }
{
    match byte_at(image, at) / 16 {
        0 => byte_from(image, at, 1),
        n => n,
    }
}

// How many bytes the item at a place has.
pub fn item_size(image: &[u8], at: usize) -> u16
    ensures { result ≡ size image.now at }
{
    head_size(byte_at(image, at)) as u16 + data_length(image, at) as u16
}

// The place of the check byte, L - 1.
pub fn check_place(image: &[u8]) -> u8
    ensures { result ≡ check_place image.now }
{
    byte_at(image, 2).saturating_sub(1)
}

// Where the item at a place ends, and the next one starts.
pub fn next_place(image: &[u8], at: u8) -> u16
    ensures { result ≡ next image.now at }
{
    at as u16 + item_size(image, at as usize)
}

// The data of the item at a place, as a pool.
pub fn pool_at(image: &[u8], at: u8) -> Pool
    ensures { result ≡ pool_at image.now (Some at) }
{
    Pool {
        from: at as u16 + head_size(byte_at(image, at as usize)) as u16,
        to: next_place(image, at),
    }
}

// Where the string at a place ends, in a pool that ends at `to`.
fn string_end(image: &[u8], to: u16, from: usize) -> usize
    requires { from < to }
    ensures { result ≡ string_end image.now to from }
{
    for at in from..to as usize {
        if 128 <= byte_at(image, at) {
            return at + 1;
        }
    }
    to as usize
}

// The place of the item of a number.
pub fn item_place(image: &[u8], number: usize) -> Option<usize>
    ensures { result ≡ nth (items image.now) number }
{
    place_of(
        |at| next_place(image, at as u8) as usize,
        3,
        check_place(image) as usize,
        number,
    )
}

// How many strings a pool has.
pub fn string_count(image: &[u8], pool: Pool) -> usize
    ensures { result ≡ length (texts image.now pool) }
{
    let end = pool.to;
    count_along(
        |at| string_end(image, end, at),
        pool.from as usize,
        end as usize,
    )
}

// The place of the string of a number.
pub fn string_place(image: &[u8], pool: Pool, number: usize) -> Option<usize>
    ensures { result ≡ nth (strings image.now pool) number }
{
    let end = pool.to;
    place_of(
        |at| string_end(image, end, at),
        pool.from as usize,
        end as usize,
        number,
    )
}

// Where the string at a place of a pool lies; the pool ends at `to`. (Past it, one byte.)
pub fn string_at(image: &[u8], to: u16, at: usize) -> Span
    ensures { result ≡ span_at image.now to at }
{
    if at < to as usize {
        return Span {
            place: at,
            length: string_end(image, to, at) - at,
        };
    }
    Span {
        place: at,
        length: 1,
    }
}

// The string of a number: where it lies, or undecodable where the pool has none of that number.
pub fn find_string(image: &[u8], pool: Pool, number: usize) -> Reference
    ensures { result ≡ reference image.now pool number }
{
    let at = string_place(image, pool, number)?;
    Some(string_at(image, pool.to, at))
}
