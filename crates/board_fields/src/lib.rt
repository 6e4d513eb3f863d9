// Rules 26 and 29 to 33 at one structure of a board image: its head, its fields and its records. The crate board_rules asks them along the walk.
// Every public function is total: a byte past the end of the image reads as 0.

#![tactic(auto)]

ghost use Rattle.std.specs.Prelude.{◌≡◌, ◌≤◌, [], ◌∷◌, not, eqb, ltb};
ghost use Rattle.chain.specs.First.{when, checks};
ghost use Rattle.octets.specs.Bytes.{byte};
ghost use Rattle.board_fields.specs.Hash.{hash_size, hash_length_fits, is_signable, bad_hash_of, bad_hash};
ghost use Rattle.board_fields.specs.Heads.{bad_map_head, bad_board_head, bad_prom_sig_head};
ghost use Rattle.board_fields.specs.Inside.{bad_gpio, bad_fpga, bad_fields, bad_inside};
ghost use Rattle.board_fields.specs.Map.{bad_map, bad_board_type};
ghost use Rattle.board_fields.specs.Reserved.{records_used, reserved_used};
ghost use Rattle.board_layout.specs.Layout.{major_at};
ghost use Rattle.board_layout.specs.Shapes.{fixed_part, reserved_from, reserved_to};

use board_layout::{Records, Shape, end_at, length_at, major_at, minor_at};
use board_records::{bad_gpio_records, bad_map_records, field_used};
use octets::{byte_at, le16_at};

mod map;

use map::bad_map_field;

// Rule 26 at one structure, by whether its Length fits.
fn bad_head(image: &[u8], at: u32, fits: bool) -> Option<usize>
    ensures { result ≡ checks (when (not (eqb (major_at image.now at) 1)) at ∷ when (not fits) at ∷ []) }
{
    (major_at(image, at) != 1 || !fits).then_some(at as usize)
}

// Rule 26 at the map.
#[tactic(auto, unfolding(crate::specs::Heads::bad_map_head))]
pub fn bad_map_head(image: &[u8], at: u32) -> Option<usize>
    ensures { result ≡ bad_map_head image.now at }
{
    let n = length_at(image, at);
    bad_head(image, at, 0x50 <= n && (n - 0x30) % 0x20 == 0)
}

// Rule 26 at the board structure.
#[tactic(auto, unfolding(crate::specs::Heads::bad_board_head))]
pub fn bad_board_head(image: &[u8], at: u32) -> Option<usize>
    ensures { result ≡ bad_board_head image.now at }
{
    bad_head(image, at, length_at(image, at) == 0x60)
}

// Rule 26 at the signature structure.
#[tactic(auto, unfolding(crate::specs::Heads::bad_prom_sig_head))]
pub fn bad_prom_sig_head(image: &[u8], at: u32) -> Option<usize>
    ensures { result ≡ bad_prom_sig_head image.now at }
{
    bad_head(image, at, 0x20 <= length_at(image, at))
}

// The size of a hash, by its type. Of a type nothing but the size is asked, so an enum of the types would be no plainer than its number.
#[tactic(auto, unfolding(crate::specs::Hash::hash_size))]
fn hash_size(kind: u16) -> u32
    ensures size { result ≡ hash_size kind }
    ensures most { result ≤ 0x40 }
{
    match kind {
        1 => 0x10,
        2 => 0x14,
        3 => 0x20,
        4 => 0x30,
        5 => 0x40,
        _ => 0x00,
    }
}

// Whether a Length fits a HashType: a signed hash may have more than its size.
fn hash_length_fits(hash: u16, length: u32) -> bool
    ensures { result ≡ hash_length_fits hash length }
{
    let least = 0x20 + hash_size(hash % 0x8000);
    if 0x8000 <= hash {
        least <= length
    } else {
        length == least
    }
}

// Whether a hash of this type may be signed.
fn is_signable(kind: u16) -> bool
    ensures { result ≡ is_signable kind }
{
    matches!(kind, 1..=3)
}

// Rule 29 of a HashType and a Length, at the HashType's place.
#[tactic(auto, unfolding(crate::specs::Hash::bad_hash_of))]
fn bad_hash_of(hash: u16, length: u32, place: usize) -> Option<usize>
    ensures { result ≡ bad_hash_of hash length place }
{
    let kind = hash % 0x8000;
    let signed = 0x8000 <= hash;
    (5 < kind)
        .then_some(place)
        .or((signed && !is_signable(kind)).then_some(place))
        .or((!hash_length_fits(hash, length)).then_some(place))
}

// Rule 29 at the signature structure.
#[tactic(auto, unfolding(crate::specs::Hash::bad_hash))]
pub fn bad_hash(image: &[u8], at: u32) -> Option<usize>
    ensures { result ≡ bad_hash image.now at }
{
    let place = at as usize + 0x10;
    bad_hash_of(le16_at(image, place), length_at(image, at), place)
}

// Rule 30 at the map: its fields, then its records.
#[tactic(auto, unfolding(crate::specs::Map::bad_map))]
pub fn bad_map(image: &[u8], at: u32) -> Option<usize>
    ensures { result ≡ bad_map image.now at }
{
    bad_map_field(image, at).or_else(|| bad_map_records(image, at))
}

// The byte at a place, where it is over a bound.
fn over(image: &[u8], place: usize, most: u8) -> Option<usize>
    ensures { result ≡ when (ltb most (byte image.now place)) place }
{
    (most < byte_at(image, place)).then_some(place)
}

// Rule 31 at the board structure.
#[tactic(auto, unfolding(crate::specs::Map::bad_board_type))]
pub fn bad_board_type(image: &[u8], at: u32) -> Option<usize>
    ensures { result ≡ bad_board_type image.now at }
{
    over(image, at as usize + 0x4C, 1)
}

// The reserved field of a table: the offset where it begins, and the one where it ends.
fn reserved(shape: Shape) -> (u8, u8)
    ensures { result ≡ (reserved_from shape, reserved_to shape) }
{
    match shape {
        Shape::Eeprom | Shape::MacInfo => (0x20, 0x30),
        Shape::EeprMap => (0x2D, 0x30),
        Shape::BrdInfo => (0x4D, 0x60),
        Shape::PromSig | Shape::MemCnfg => (0x12, 0x20),
        Shape::FpgaNfo => (0x13, 0x20),
        Shape::AcpiTbl
        | Shape::GpioDat
        | Shape::HdCodec
        | Shape::Logo
        | Shape::UCode
        | Shape::Video => (0x10, 0x20),
        Shape::Other => (0x10, 0x10),
    }
}

// Rule 32 in the records of a structure.
fn records_used(image: &[u8], at: u32, shape: Shape) -> Option<usize>
    ensures { result ≡ records_used image.now at shape }
{
    match shape {
        Shape::EeprMap => board_records::records_used(Records::Map, image, at),
        Shape::GpioDat => board_records::records_used(Records::Gpio, image, at),
        _ => None,
    }
}

// Rule 32 at a structure of this table.
#[tactic(auto, unfolding(crate::specs::Reserved::reserved_used))]
pub fn reserved_used(image: &[u8], at: u32, shape: Shape) -> Option<usize>
    ensures { result ≡ reserved_used image.now at shape }
{
    if minor_at(image, at) != 0 {
        return None;
    }
    let (from, to) = reserved(shape);
    let own = field_used(image, from, to, end_at(image, at), at as usize);
    own.or_else(|| records_used(image, at, shape))
}

// The fixed part of a table.
fn fixed_part(shape: Shape) -> u8
    ensures { result ≡ fixed_part shape }
{
    match shape {
        Shape::MacInfo => 0x30,
        _ => 0x20,
    }
}

// Rule 33 at GPIO data that have their fixed part: whole records, then each of them.
#[tactic(auto, unfolding(crate::specs::Inside::bad_gpio))]
fn bad_gpio(image: &[u8], at: u32) -> Option<usize>
    ensures { result ≡ bad_gpio image.now at }
{
    let cut = length_at(image, at).saturating_sub(0x20) % 0x30 != 0;
    cut.then_some(at as usize)
        .or_else(|| bad_gpio_records(image, at))
}

// Rule 33 at an FPGA structure that has its fixed part.
#[tactic(auto, unfolding(crate::specs::Inside::bad_fpga))]
fn bad_fpga(image: &[u8], at: u32) -> Option<usize>
    ensures { result ≡ bad_fpga image.now at }
{
    over(image, at as usize + 0x10, 4)
}

// Rule 33 at a structure that has its fixed part.
fn bad_fields(image: &[u8], at: u32, shape: Shape) -> Option<usize>
    ensures { result ≡ bad_fields image.now at shape }
{
    match shape {
        Shape::FpgaNfo => bad_fpga(image, at),
        Shape::GpioDat => bad_gpio(image, at),
        _ => None,
    }
}

// Rule 33 at a structure of this table.
#[tactic(auto, unfolding(crate::specs::Inside::bad_inside))]
pub fn bad_inside(image: &[u8], at: u32, shape: Shape) -> Option<usize>
    ensures { result ≡ bad_inside image.now at shape }
{
    if length_at(image, at) < fixed_part(shape) as u32 {
        return Some(at as usize);
    }
    bad_fields(image, at, shape)
}
