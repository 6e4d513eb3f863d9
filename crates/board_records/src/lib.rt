// The records of a map and of GPIO data: what rules 30, 34, 32 and 33 say of one record, and the search for the first that breaks one of them.
// Every public function is total: a byte past the end of the image reads as 0.

#![tactic(auto)]

ghost use Rattle.std.specs.Prelude.{ℕ, ◌≡◌, ◌+◌, ◌*◌, ◌<◌, ◌^◌, ◌&&◌, eqb};
ghost use Rattle.board_records.specs.Records.{map_number, bad_map_record, repeated_label, data_size_fits, bad_gpio_record, field_used, record_from, record_to, record_used};
ghost use Rattle.board_layout.specs.Layout.{records};
ghost use Rattle.board_layout.specs.declared.Records.TheVariants.{Map, Gpio};
ghost use Rattle.chain.specs.Along.{Asks};
ghost use Rattle.chain.specs.First.{first};
ghost use Rattle.chain.specs.Found.{Found};
ghost use Rattle.octets.specs.Bytes.{le64};

use board_layout::{Records, data_offset, end_at, record_size};
use chain::first_along;
use octets::label::bad_label;
use octets::{byte_at, first_nonzero, le32_at, le64_at};

// The product: it has no more than 64 bits.
pub fn times(a: u32, b: u32) -> u64
    ensures { result ≡ a * b }
{
    a as u64 * b as u64
}

// Rule 32 at one field of what starts at a place: the offsets from `from` up to `to`, if the field ends by `end`.
pub fn field_used(image: &[u8], from: u8, to: u8, end: usize, at: usize) -> Option<usize>
    ensures { result ≡ field_used image.now from to end at }
{
    let last = end.checked_sub(to as usize)?;
    if last < at {
        return None;
    }
    first_nonzero(image, at, from as usize, to as usize)
}

// The reserved field of a record: the offset where it begins, and the one where it ends.
fn reserved(which: Records) -> (u8, u8)
    ensures { result ≡ (record_from which, record_to which) }
{
    match which {
        Records::Map => (0x19, 0x20),
        Records::Gpio => (0x22, 0x30),
    }
}

// The bound on a record's place stands in each contract below. A struct of the image and the place, with the bound as its invariant, would be no plainer:
// each closure that is given to `first_record` would have to build one.

// The number of the record at a place, of the map at another.
fn record_number(map: u32, at: usize) -> u32
    requires { at < 0x4_0000_0000 }
    ensures { result ≡ map_number map at }
{
    let start = map as usize + 0x30;
    (at.saturating_sub(start) / 0x20) as u32
}

// Rule 30 at the record at a place, of the map at another.
fn bad_map_record(image: &[u8], map: u32, at: usize) -> Option<usize>
    requires { at < 0x4_0000_0000 }
    ensures { result ≡ bad_map_record image.now map at }
{
    let block = le32_at(image, map as usize + 0x20);
    let offset = times(record_number(map, at), block);
    bad_label(image, at)
        .or((le32_at(image, at + 0x10) != 0x20).then_some(at + 0x10))
        .or((le32_at(image, at + 0x14) as u64 != offset).then_some(at + 0x14))
        .or((0x7F < byte_at(image, at + 0x18)).then_some(at + 0x18))
}

// Whether the sixteen bytes at a place are a label, which is given as two numbers of eight bytes.
fn has_label(image: &[u8], at: usize, low: u64, high: u64) -> bool
    requires { at < 0x4_0000_0000 }
    ensures { result ≡ eqb (le64 image.now at) low && eqb (le64 image.now (at + 8)) high }
{
    le64_at(image, at) == low && le64_at(image, at + 8) == high
}

// Rule 34 at the record at a place, of the map at another: its label, where an earlier record has the same.
fn repeated_label(image: &[u8], map: u32, at: usize) -> Option<usize>
    requires { at < 0x4_0000_0000 }
    ensures { result ≡ repeated_label image.now map at }
{
    let low = le64_at(image, at);
    let high = le64_at(image, at + 8);
    first_along(
        |earlier| has_label(image, earlier, low, high).then_some(at),
        |earlier| earlier + 0x20,
        map as usize + 0x30,
        at,
    )
}

// Whether a GPIO record's DataSize is good.
fn is_data_size(n: u8) -> bool
    ensures { result ≡ data_size_fits n }
{
    matches!(n, 1 | 2 | 4)
}

// Rule 33 at the GPIO record at a place.
fn bad_gpio_record(image: &[u8], at: usize) -> Option<usize>
    requires { at < 0x4_0000_0000 }
    ensures { result ≡ bad_gpio_record image.now at }
{
    bad_label(image, at)
        .or((le32_at(image, at + 0x10) != 0x30).then_some(at + 0x10))
        .or((!is_data_size(byte_at(image, at + 0x20))).then_some(at + 0x20))
        .or((4 < byte_at(image, at + 0x21)).then_some(at + 0x21))
}

// Rule 32 at the record at a place, of the structure at another.
fn record_used(which: Records, image: &[u8], structure: u32, at: usize) -> Option<usize>
    ensures { result ≡ record_used which image.now structure at }
{
    let (from, to) = reserved(which);
    field_used(image, from, to, end_at(image, structure), at)
}

// What a rule says first along the records of the structure at a place.
fn first_record<R: Fn(usize) -> Option<usize>>(
    which: Records,
    image: &[u8],
    structure: u32,
    rule: R,
) -> Option<usize>
    requires askable { (p : ℕ) → p < 2 ^ 33 → R.pre rule p }
    ensures { (said : ℕ → Found) → Asks (R.post rule) (2 ^ 33) said → result ≡ first said (records which image.now structure) }
{
    let size = record_size(which) as usize;
    first_along(
        rule,
        |at| at + size,
        structure as usize + data_offset(which) as usize,
        end_at(image, structure),
    )
}

// Rule 30 at the records of the map at a place.
pub fn bad_map_records(image: &[u8], at: u32) -> Option<usize>
    ensures { result ≡ first (bad_map_record image.now at) (records Map image.now at) }
{
    first_record(
        Records::Map,
        image,
        at,
        |record| bad_map_record(image, at, record),
    )
}

// Rule 34 at the records of the map at a place.
pub fn repeated_labels(image: &[u8], at: u32) -> Option<usize>
    ensures { result ≡ first (repeated_label image.now at) (records Map image.now at) }
{
    first_record(
        Records::Map,
        image,
        at,
        |record| repeated_label(image, at, record),
    )
}

// Rule 33 at the records of the GPIO data at a place.
pub fn bad_gpio_records(image: &[u8], at: u32) -> Option<usize>
    ensures { result ≡ first (bad_gpio_record image.now) (records Gpio image.now at) }
{
    first_record(
        Records::Gpio,
        image,
        at,
        |record| bad_gpio_record(image, record),
    )
}

// Rule 32 at the records of the structure at a place.
pub fn records_used(which: Records, image: &[u8], at: u32) -> Option<usize>
    ensures { result ≡ first (record_used which image.now at) (records which image.now at) }
{
    first_record(
        which,
        image,
        at,
        |record| record_used(which, image, at, record),
    )
}
