// What is shown of an item. These functions take any image and any place; of an accepted image, at the place of a structure, they show what is there.
ghost use Rattle.std.specs.Prelude.{cond, ◌≡◌, None};
ghost use Rattle.board.specs.Items.{rest_at, eeprom_at, eepr_map_at, brd_info_at, prom_sig_fields_at, fpga_nfo_at, mem_cnfg_at, mac_info_at, headed, item_as, item_at};
ghost use Rattle.board_layout.specs.Shapes.{knows};

use super::{
    BrdInfoFields, EeprMapFields, EepromFields, Fields, FpgaNfoFields, Known, MacInfoFields,
    MemCnfgFields, PromSigFields, ShownItem,
};
use board_layout::{Shape, is_known, length_at, major_at, minor_at, shape_at};
use kinds::Kinds;
use octets::{Span, byte_at, bytes_at, le16_at, le32_at, le64_at};

// What follows the fields, from an offset on.
#[tactic(auto, unfolding(crate::specs::Items::rest_at))]
fn rest_at(image: &[u8], at: u32, offset: u8) -> Span
    ensures { result ≡ rest_at image.now at offset }
{
    Span {
        place: at as usize + offset as usize,
        length: length_at(image, at).saturating_sub(u32::from(offset)) as usize,
    }
}

// The fields of `$Eeprom$`.
#[tactic(auto, unfolding(crate::specs::Items::eeprom_at))]
fn eeprom_at(image: &[u8], at: u32) -> EepromFields
    ensures { result ≡ eeprom_at image.now at }
{
    let p = at as usize;
    EepromFields {
        structlen: le32_at(image, p + 0x10),
        crclength: le32_at(image, p + 0x18),
        version: le32_at(image, p + 0x1C),
    }
}

// The fields of `$EeprMap`.
#[tactic(auto, unfolding(crate::specs::Items::eepr_map_at))]
fn eepr_map_at(image: &[u8], at: u32) -> EeprMapFields
    ensures { result ≡ eepr_map_at image.now at }
{
    let p = at as usize;
    EeprMapFields {
        partlabel: bytes_at(image, p + 0x10),
        blklength: le32_at(image, p + 0x20),
        pagesize: le16_at(image, p + 0x24),
        partsize: le32_at(image, p + 0x26),
        busnumber: byte_at(image, p + 0x2A),
        master: byte_at(image, p + 0x2B),
        speed: byte_at(image, p + 0x2C),
        mapdata: rest_at(image, at, 0x30),
    }
}

// The fields of `$BrdInfo`.
#[tactic(auto, unfolding(crate::specs::Items::brd_info_at))]
fn brd_info_at(image: &[u8], at: u32) -> BrdInfoFields
    ensures { result ≡ brd_info_at image.now at }
{
    let p = at as usize;
    BrdInfoFields {
        manuname: bytes_at(image, p + 0x10),
        brdname: bytes_at(image, p + 0x20),
        brdserial: bytes_at(image, p + 0x30),
        boardid: le32_at(image, p + 0x40),
        fabid: le32_at(image, p + 0x44),
        ecid: le32_at(image, p + 0x48),
        boardtype: byte_at(image, p + 0x4C),
    }
}

// The fields of `$PromSig`.
#[tactic(auto, unfolding(crate::specs::Items::prom_sig_fields_at))]
fn prom_sig_at(image: &[u8], at: u32) -> PromSigFields
    ensures { result ≡ prom_sig_fields_at image.now at }
{
    PromSigFields {
        hashtype: le16_at(image, at as usize + 0x10),
        eepromsig: rest_at(image, at, 0x20),
    }
}

// The fields of `$FPGAnfo`.
#[tactic(auto, unfolding(crate::specs::Items::fpga_nfo_at))]
fn fpga_nfo_at(image: &[u8], at: u32) -> FpgaNfoFields
    ensures { result ≡ fpga_nfo_at image.now at }
{
    let p = at as usize;
    FpgaNfoFields {
        datatype: byte_at(image, p + 0x10),
        devnum: byte_at(image, p + 0x11),
        funcnum: byte_at(image, p + 0x12),
        fpgadata: rest_at(image, at, 0x20),
    }
}

// The fields of `$MemCnfg`.
#[tactic(auto, unfolding(crate::specs::Items::mem_cnfg_at))]
fn mem_cnfg_at(image: &[u8], at: u32) -> MemCnfgFields
    ensures { result ≡ mem_cnfg_at image.now at }
{
    MemCnfgFields {
        spdslot: le16_at(image, at as usize + 0x10),
        memdata: rest_at(image, at, 0x20),
    }
}

// The fields of `$MacInfo`.
#[tactic(auto, unfolding(crate::specs::Items::mac_info_at))]
fn mac_info_at(image: &[u8], at: u32) -> MacInfoFields
    ensures { result ≡ mac_info_at image.now at }
{
    let p = at as usize;
    MacInfoFields {
        nicid: bytes_at(image, p + 0x10),
        macaddr: bytes_at(image, p + 0x18),
        nicnum: le16_at(image, p + 0x1E),
        nicdata: rest_at(image, at, 0x30),
    }
}

// The fields of the structure at a place, by its table.
fn fields_at(image: &[u8], at: u32, shape: Shape) -> Option<Fields>
    ensures { headed image.now at result ≡ item_as image.now at shape }
{
    match shape {
        Shape::Eeprom => Some(Fields::Eeprom(eeprom_at(image, at))),
        Shape::EeprMap => Some(Fields::EeprMap(eepr_map_at(image, at))),
        Shape::BrdInfo => Some(Fields::BrdInfo(brd_info_at(image, at))),
        Shape::PromSig => Some(Fields::PromSig(prom_sig_at(image, at))),
        Shape::AcpiTbl => Some(Fields::AcpiTbl(rest_at(image, at, 0x20))),
        Shape::FpgaNfo => Some(Fields::FpgaNfo(fpga_nfo_at(image, at))),
        Shape::GpioDat => Some(Fields::GpioDat(rest_at(image, at, 0x20))),
        Shape::HdCodec => Some(Fields::HdCodec(rest_at(image, at, 0x20))),
        Shape::Logo => Some(Fields::Logo(rest_at(image, at, 0x20))),
        Shape::MemCnfg => Some(Fields::MemCnfg(mem_cnfg_at(image, at))),
        Shape::MacInfo => Some(Fields::MacInfo(mac_info_at(image, at))),
        Shape::UCode => Some(Fields::UCode(rest_at(image, at, 0x20))),
        Shape::Video => Some(Fields::Video(rest_at(image, at, 0x20))),
        Shape::Other => None,
    }
}

// The structure at a place, by its table.
fn item_as(image: &[u8], at: u32, shape: Shape) -> Option<Known>
    ensures { result ≡ item_as image.now at shape }
{
    let fields = fields_at(image, at, shape)?;
    Some(Known {
        major: major_at(image, at),
        minor: minor_at(image, at),
        length: length_at(image, at),
        fields,
    })
}

// What a reader with this list shows inside it.
fn inside_at(image: &[u8], kinds: Kinds, at: u32, shape: Shape) -> Option<Known>
    ensures { result ≡ cond (knows kinds shape) (item_as image.now at shape) None }
{
    if is_known(kinds, shape) {
        item_as(image, at, shape)
    } else {
        None
    }
}

// The item at a place.
#[tactic(auto, unfolding(crate::specs::Items::item_at))]
pub fn item_at(image: &[u8], kinds: Kinds, at: u32) -> ShownItem
    ensures { result ≡ item_at kinds image.now at }
{
    ShownItem {
        signature: le64_at(image, at as usize),
        place: at as usize,
        length: length_at(image, at).saturating_sub(0x10) as usize,
        item: inside_at(image, kinds, at, shape_at(image, at)),
    }
}
