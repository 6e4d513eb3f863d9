// What a reader shows of a board image: an item by its number, and the records of the map and of GPIO data by theirs. Each of these judges the image
// first; then 42.

#![tactic(auto)]

ghost use Rattle.std.specs.Prelude.{◌≡◌};
ghost use Rattle.board.specs.Answers.{item_numbered, map_record_numbered, gpio_record_numbered};

use board_layout::{Records, map_place, record_place, structure_place};
use board_rules::judge;
use kinds::Kinds;
use octets::Span;
use verdict::Refusal;

mod items;
mod records;

pub use items::item_at;
use records::gpio_record_of;
pub use records::{gpio_record_at, map_record_at};

// An offset in the image, and a bus address: counted apart.
#[derive(Clone, Copy)]
pub struct ImageOffset(pub u32);

#[derive(Clone, Copy)]
pub struct BusAddress(pub u8);

// The fields of `$Eeprom$`. Crc32 is a check number and never shown.
#[derive(Clone, Copy)]
pub struct EepromFields {
    pub structlen: u32,
    pub crclength: u32,
    pub version: u32,
}

// The fields of `$EeprMap`, and where its records lie.
#[derive(Clone, Copy)]
pub struct EeprMapFields {
    pub partlabel: [u8; 16],
    pub blklength: u32,
    pub pagesize: u16,
    pub partsize: u32,
    pub busnumber: u8,
    pub master: u8,
    pub speed: u8,
    pub mapdata: Span,
}

// The fields of `$BrdInfo`.
#[derive(Clone, Copy)]
pub struct BrdInfoFields {
    pub manuname: [u8; 16],
    pub brdname: [u8; 16],
    pub brdserial: [u8; 16],
    pub boardid: u32,
    pub fabid: u32,
    pub ecid: u32,
    pub boardtype: u8,
}

// The field of `$PromSig`, and where the hash lies.
#[derive(Clone, Copy)]
pub struct PromSigFields {
    pub hashtype: u16,
    pub eepromsig: Span,
}

// The fields of `$FPGAnfo`, and where the bitstream lies.
#[derive(Clone, Copy)]
pub struct FpgaNfoFields {
    pub datatype: u8,
    pub devnum: u8,
    pub funcnum: u8,
    pub fpgadata: Span,
}

// The field of `$MemCnfg`, and where the memory data lie.
#[derive(Clone, Copy)]
pub struct MemCnfgFields {
    pub spdslot: u16,
    pub memdata: Span,
}

// The fields of `$MacInfo`, and where what else it holds lies.
#[derive(Clone, Copy)]
pub struct MacInfoFields {
    pub nicid: [u8; 8],
    pub macaddr: [u8; 6],
    pub nicnum: u16,
    pub nicdata: Span,
}

// The fields of a structure by its table. Tables without any show what follows their reserved bytes, by place and length.
#[derive(Clone, Copy)]
pub enum Fields {
    Eeprom(EepromFields),
    EeprMap(EeprMapFields),
    BrdInfo(BrdInfoFields),
    PromSig(PromSigFields),
    AcpiTbl(Span),
    FpgaNfo(FpgaNfoFields),
    GpioDat(Span),
    HdCodec(Span),
    Logo(Span),
    MemCnfg(MemCnfgFields),
    MacInfo(MacInfoFields),
    UCode(Span),
    Video(Span),
}

// A known structure: VerMajor, VerMinor and Length of its head, and its fields.
#[derive(Clone, Copy)]
pub struct Known {
    pub major: u16,
    pub minor: u16,
    pub length: u32,
    pub fields: Fields,
}

// Any item: its signature (the eight bytes as the number they spell, the first lowest), place and data length; and its fields; none of one that is not known.
#[derive(Clone, Copy)]
pub struct ShownItem {
    pub signature: u64,
    pub place: usize,
    pub length: usize,
    pub item: Option<Known>,
}

// A record of the map.
#[derive(Clone, Copy)]
pub struct MapRecord {
    pub maplabel: [u8; 16],
    pub length: u32,
    pub offset: ImageOffset,
    pub address: BusAddress,
}

// A record of GPIO data.
#[derive(Clone, Copy)]
pub struct GpioRecord {
    pub gpiolabel: [u8; 16],
    pub length: u32,
    pub offset: u32,
    pub anddata: u32,
    pub ordata: u32,
    pub datasize: u8,
    pub datatype: u8,
}

// The refusal of a number past the last one.
const BEYOND: Refusal = Refusal {
    number: 42,
    place: 0,
};

// The item of a number, counted from 0 in image order. (One function over what is shown would be no plainer than the three: it would take two closures,
// one for the place and one for what lies there, and each of the three would still be a call of it with both.)
#[tactic(auto, unfolding(crate::specs::Answers::item_numbered))]
pub fn item_numbered(image: &[u8], kinds: Kinds, number: usize) -> Result<ShownItem, Refusal>
    ensures { result ≡ item_numbered kinds image.now number }
{
    judge(image, kinds)?;
    let at = structure_place(image, number).ok_or(BEYOND)?;
    Ok(item_at(image, kinds, at as u32))
}

// The record of a number in the map.
#[tactic(auto, unfolding(crate::specs::Answers::map_record_numbered))]
pub fn map_record_numbered(image: &[u8], kinds: Kinds, number: usize) -> Result<MapRecord, Refusal>
    ensures { result ≡ map_record_numbered kinds image.now number }
{
    judge(image, kinds)?;
    let map = map_place(image) as u32;
    let at = record_place(Records::Map, image, map, number).ok_or(BEYOND)?;
    Ok(map_record_at(image, at as u32))
}

// The record of a number in the GPIO data that are the item of a number; an item that is not known, or holds no such data, has none.
#[tactic(auto, unfolding(crate::specs::Answers::gpio_record_numbered))]
pub fn gpio_record_numbered(
    image: &[u8],
    kinds: Kinds,
    item: usize,
    number: usize,
) -> Result<GpioRecord, Refusal>
    ensures { result ≡ gpio_record_numbered kinds image.now item number }
{
    judge(image, kinds)?;
    let at = gpio_record_of(image, kinds, item, number).ok_or(BEYOND)?;
    Ok(gpio_record_at(image, at as u32))
}
