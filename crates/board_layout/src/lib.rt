// The layout of a board image: structures on boundaries of 16 bytes, each with a generic head; and the records of two of them.
// Every public function is total: a byte past the end of the image reads as 0.

#![tactic(auto)]

ghost use Rattle.std.specs.Prelude.{◌≡◌, ◌+◌, ◌≤◌, ◌<◌, length, take, drop};
ghost use Rattle.chain.specs.Nth.{nth};
ghost use Rattle.board_layout.specs.Layout.{head_at, major_at, minor_at, length_at, shape_at, struct_len, end_at, covers, round16, next, structures, header_length, header_with, map_at, board_at, later_at, data_offset, record_size, records};
ghost use Rattle.board_layout.specs.Shapes.{listed_shape, shape_of, knows};

use chain::place_of;
use kinds::{
    ACPI_TBL, BRD_INFO, EEPR_MAP, EEPROM, FPGA_NFO, GPIO_DAT, HD_CODEC, Kinds, LOGO, MAC_INFO,
    MEM_CNFG, PROM_SIG, U_CODE, VIDEO,
};
use octets::{le16_at, le32_at, le64_at};

// Which table of the layout paper a structure has: its signature's, of the listed ones with VerMajor 1 only. Other: none.
#[derive(Clone, Copy)]
pub enum Shape {
    Eeprom,
    EeprMap,
    BrdInfo,
    PromSig,
    AcpiTbl,
    FpgaNfo,
    GpioDat,
    HdCodec,
    Logo,
    MemCnfg,
    MacInfo,
    UCode,
    Video,
    Other,
}

// The generic head of a structure.
#[derive(Clone, Copy)]
pub struct Head {
    pub signature: u64,
    pub major: u16,
    pub minor: u16,
    pub length: u32,
}

// The two headers: one that ends before its Reserved field, and one that covers it.
#[derive(Clone, Copy)]
pub enum Header {
    Short,
    Long,
}

// The records of a map, or of GPIO data.
#[derive(Clone, Copy)]
pub enum Records {
    Map,
    Gpio,
}

// The table of a structure that a list may hold.
#[tactic(auto, unfolding(crate::specs::Shapes::listed_shape))]
fn listed_shape(signature: u64) -> Shape
    ensures { result ≡ listed_shape signature }
{
    match signature {
        ACPI_TBL => Shape::AcpiTbl,
        FPGA_NFO => Shape::FpgaNfo,
        GPIO_DAT => Shape::GpioDat,
        HD_CODEC => Shape::HdCodec,
        LOGO => Shape::Logo,
        MEM_CNFG => Shape::MemCnfg,
        MAC_INFO => Shape::MacInfo,
        U_CODE => Shape::UCode,
        VIDEO => Shape::Video,
        _ => Shape::Other,
    }
}

// The table of a structure, by its signature and VerMajor.
#[tactic(auto, unfolding(crate::specs::Shapes::shape_of))]
pub fn shape_of(signature: u64, major: u16) -> Shape
    ensures { result ≡ shape_of signature major }
{
    match signature {
        EEPROM => Shape::Eeprom,
        EEPR_MAP => Shape::EeprMap,
        BRD_INFO => Shape::BrdInfo,
        PROM_SIG => Shape::PromSig,
        _ if major == 1 => listed_shape(signature),
        _ => Shape::Other,
    }
}

// Whether a reader with this list knows a structure.
pub fn is_known(kinds: Kinds, shape: Shape) -> bool
    ensures { result ≡ knows kinds shape }
{
    match shape {
        Shape::Eeprom | Shape::EeprMap | Shape::BrdInfo | Shape::PromSig => true,
        Shape::AcpiTbl => kinds.acpitbl,
        Shape::FpgaNfo => kinds.fpganfo,
        Shape::GpioDat => kinds.gpiodat,
        Shape::HdCodec => kinds.hdcodec,
        Shape::Logo => kinds.logo,
        Shape::MemCnfg => kinds.memcnfg,
        Shape::MacInfo => kinds.macinfo,
        Shape::UCode => kinds.ucode,
        Shape::Video => kinds.video,
        Shape::Other => false,
    }
}

// The functions on one structure take its image and its place. Any place is good for any image, so a struct of both would have no invariant and be no plainer.

// VerMajor of the structure at a place.
pub fn major_at(image: &[u8], at: u32) -> u16
    ensures { result ≡ major_at image.now at }
{
    le16_at(image, at as usize + 0x08)
}

// VerMinor of the structure at a place.
pub fn minor_at(image: &[u8], at: u32) -> u16
    ensures { result ≡ minor_at image.now at }
{
    le16_at(image, at as usize + 0x0A)
}

// Length of the structure at a place.
pub fn length_at(image: &[u8], at: u32) -> u32
    ensures { result ≡ length_at image.now at }
{
    le32_at(image, at as usize + 0x0C)
}

// The sixteen bytes from a place on, or as many of them as there are. Of a part of sixteen bytes the compiler knows that what is read lies within.
fn window<'a>(image: &'a [u8], place: usize) -> &'a [u8]
    ensures { result.now ≡ take 16 (drop place image.now) }
{
    if place < image.len() {
        if 16 <= image.len() - place {
            let end = place + 16;
            return &image[place..end];
        }
        return &image[place..];
    }
    &image[0..0]
}

// The generic head at the front of a part, in two loads: the second has VerMajor, VerMinor and Length.
fn head_in(part: &[u8]) -> Head
    ensures { result ≡ head_at part.now 0 }
{
    let signature = le64_at(part, 0);
    let rest = le64_at(part, 0x08);
    let major = (rest % 65536) as u16;
    let minor = (rest / 65536 % 65536) as u16;
    let length = (rest / 4294967296) as u32;
    Head {
        signature,
        major,
        minor,
        length,
    }
}

// The generic head of the structure at a place.
pub fn head_at(image: &[u8], at: u32) -> Head
    ensures { result ≡ head_at image.now at }
{
    head_in(window(image, at as usize))
}

// The table of the structure at a place.
#[tactic(auto, unfolding(crate::specs::Layout::shape_at))]
pub fn shape_at(image: &[u8], at: u32) -> Shape
    ensures { result ≡ shape_at image.now at }
{
    shape_of(le64_at(image, at as usize), major_at(image, at))
}

// StructLen: how many bytes the image has.
pub fn struct_len(image: &[u8]) -> u32
    ensures { result ≡ struct_len image.now }
{
    le32_at(image, 0x10)
}

// Where the structure at a place ends.
#[tactic(auto, unfolding(crate::specs::Layout::end_at))]
pub fn end_at(image: &[u8], at: u32) -> usize
    ensures { result ≡ end_at image.now at }
{
    at as usize + length_at(image, at) as usize
}

// How many bytes the walk passes over for a Length.
fn walked(length: u32) -> u32
    ensures { result ≡ covers length }
{
    length.max(16)
}

// Each step has two functions. Those that other crates call, `next_after` and `next_place`, take any place of 32 bits and ask nothing of it. Places past
// the first structures may need more bits, so the inner ones, `past` and `next_from`, take a wider place and ask for a bound.

// Where the structure after one of this Length starts.
#[tactic(auto, unfolding(crate::specs::Layout::round16))]
fn past(at: usize, length: u32) -> usize
    requires { at ≤ 0x4_0000_0000 }
    ensures { result ≡ round16 (at + covers length) }
{
    (at + walked(length) as usize + 15) / 16 * 16
}

// The same, for a place in an image.
pub fn next_after(at: u32, length: u32) -> usize
    ensures { result ≡ round16 (at + covers length) }
{
    past(at as usize, length)
}

// Where the structure after the one at a place starts.
#[tactic(auto, unfolding(crate::specs::Layout::next))]
fn next_from(image: &[u8], at: usize) -> usize
    requires { at ≤ 0x4_0000_0000 }
    ensures { result ≡ next image.now at }
{
    past(at, le32_at(image, at + 0x0C))
}

// The same, of any place in an image.
pub fn next_place(image: &[u8], at: u32) -> usize
    ensures { result ≡ next image.now at }
{
    next_from(image, at as usize)
}

// Where the second structure starts.
#[tactic(auto, unfolding(crate::specs::Layout::map_at))]
pub fn map_place(image: &[u8]) -> usize
    ensures { result ≡ map_at image.now }
{
    next_from(image, 0)
}

// Where the third one starts.
#[tactic(auto, unfolding(crate::specs::Layout::board_at))]
pub fn board_place(image: &[u8]) -> usize
    ensures { result ≡ board_at image.now }
{
    next_from(image, map_place(image))
}

// Where those after it start.
#[tactic(auto, unfolding(crate::specs::Layout::later_at))]
pub fn later_place(image: &[u8]) -> usize
    ensures { result ≡ later_at image.now }
{
    next_from(image, board_place(image))
}

// The place of the structure of a number.
pub fn structure_place(image: &[u8], number: usize) -> Option<usize>
    ensures { result ≡ nth (structures image.now) number }
{
    place_of(
        |at| next_from(image, at),
        0,
        struct_len(image) as usize,
        number,
    )
}

// The Length of a header.
pub fn header_length(header: Header) -> u8
    ensures { result ≡ header_length header }
{
    match header {
        Header::Short => 0x20,
        Header::Long => 0x30,
    }
}

// The header that has this Length; the long one for a Length that neither has.
pub fn header_with(length: u32) -> Header
    ensures { result ≡ header_with length }
{
    if length == 0x20 {
        Header::Short
    } else {
        Header::Long
    }
}

// Where the records of a structure begin, counted from its start.
pub fn data_offset(which: Records) -> u8
    ensures { result ≡ data_offset which }
{
    match which {
        Records::Map => 0x30,
        Records::Gpio => 0x20,
    }
}

// How many bytes a record has.
pub fn record_size(which: Records) -> u8
    ensures { result ≡ record_size which }
{
    match which {
        Records::Map => 0x20,
        Records::Gpio => 0x30,
    }
}

// The place of the record of a number, of the structure at a place.
pub fn record_place(which: Records, image: &[u8], at: u32, number: usize) -> Option<usize>
    ensures { result ≡ nth (records which image.now at) number }
{
    let end = end_at(image, at);
    if end <= number {
        return None;
    }
    let place = at as usize + data_offset(which) as usize + number * record_size(which) as usize;
    (place < end).then_some(place)
}
