// What a reader shows of a tiny image: an item by its number, a string by its number, and the name. Each of these three judges the image first.
// The order everywhere: the image's own refusal, then 42, 44, 43. A refused call changes no byte of a lent buffer.

#![tactic(auto)]

ghost use Rattle.std.specs.Prelude.{◌≡◌};
ghost use Rattle.tiny.specs.Answers.{item_numbered, string_numbered, name_of};
ghost use Rattle.tiny.specs.Texts.{ShowsTexts, text_numbered};
ghost use Rattle.tiny.specs.Values.{string_said};

use kinds::Kinds;
use octets::Span;
use tiny_layout::{Reference, item_place, string_at, string_place};
use tiny_rules::{judge, pool_of};
use verdict::Refusal;

mod fields;
mod serial;

pub use fields::{item_at, major_text};

// 42: no item or string has the number.
const NO_SUCH_NUMBER: Refusal = Refusal {
    number: 42,
    place: 0,
};

// What 61, 62, 80 and 81 say of a product.
#[derive(Clone, Copy)]
pub struct Identity {
    pub serial: Reference,
    pub part: Reference,
    pub major: u8,
    pub minor: u8,
    pub characters: [u8; 2],
}

// 80 and 81: and its batch.
#[derive(Clone, Copy)]
pub struct Batched {
    pub identity: Identity,
    pub batch: u16,
}

// A pool: how many strings it has, and where its data lie.
#[derive(Clone, Copy)]
pub struct PoolShown {
    pub count: usize,
    pub bytes: Span,
}

// What an item shows beside its tag, place and length: the fields of a known one. (`NotKnown` is one of seven cases; an Option around the other six would
// make two matches of one wherever it is read.)
#[derive(Clone, Copy)]
pub enum Item {
    Pool(PoolShown),
    Serial(Reference),
    Flags(u8),
    Address([u8; 6]),
    Identity(Identity),
    Batched(Batched),
    NotKnown,
}

// Any item: its tag, place and data length; and, where it is known, its fields.
#[derive(Clone, Copy)]
pub struct ShownItem {
    pub tag: u8,
    pub place: usize,
    pub length: usize,
    pub item: Item,
}

// The item of a number, counted from 0 in image order.
pub fn item_numbered(image: &[u8], kinds: Kinds, number: usize) -> Result<ShownItem, Refusal>
    ensures answer { result ≡ item_numbered kinds image.now number }
    ensures texts { ShowsTexts kinds image.now result }
{
    judge(image, kinds)?;
    let at = item_place(image, number).ok_or(NO_SUCH_NUMBER)?;
    Ok(item_at(image, kinds, pool_of(image, kinds), at as u32))
}

// The string of a number in the listed pool; undecodable for every number where 01 is not on the list.
pub fn string_numbered(image: &[u8], kinds: Kinds, number: usize) -> Result<Reference, Refusal>
    ensures answer { result ≡ string_numbered kinds image.now number }
    ensures text_said { string_said image.now result ≡ text_numbered kinds image.now number }
{
    judge(image, kinds)?;
    if !kinds.has_tag(0x01) {
        return Ok(None);
    }
    let pool = pool_of(image, kinds);
    let at = string_place(image, pool, number).ok_or(NO_SUCH_NUMBER)?;
    Ok(Some(string_at(image, pool.to, at)))
}

// The file name: the serial text of the only known item of tag 10, to the front of a lent buffer.
pub fn name(image: &[u8], kinds: Kinds, buffer: &mut [u8]) -> Result<usize, Refusal>
    ensures { (result, buffer.new) ≡ name_of kinds image.now buffer.old }
{
    judge(image, kinds)?;
    serial::name_in(image, kinds, buffer)
}
