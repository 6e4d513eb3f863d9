// The fixed parts of an image as bytes: the header, the map up to its records, a record, the board structure. Reserved bytes stay zero.
ghost use Rattle.std.specs.Prelude.{◌++◌, ◌≡◌, ◌-◌};
ghost use Rattle.board_layout.specs.Layout.{header_length};
ghost use Rattle.board_writer.specs.Image.{zeros, head, header_of, map_of, record_of, board_of};

use super::MapFields;
use board::BrdInfoFields;
use board_layout::{Header, header_length};
use kinds::{BRD_INFO, EEPR_MAP, EEPROM};
use octets::put_at;

// A generic head of version 1.0.
fn head_bytes(signature: u64, length: u32) -> [u8; 16]
    ensures { result ≡ head signature length }
{
    let mut bytes = [0u8; 16];
    put_at(&signature.to_le_bytes(), 0, &mut bytes);
    bytes[8] = 1;
    put_at(&length.to_le_bytes(), 12, &mut bytes);
    bytes
}

// `$Eeprom$`, and zeros up to 30h bytes.
pub fn header_bytes(header: Header, end: u32, check: u32, covers: u32, version: u32) -> [u8; 48]
    ensures { result ≡ header_of header end check covers version ++ zeros (0x30 - header_length header) }
{
    let mut bytes = [0u8; 48];
    put_at(
        &head_bytes(EEPROM, header_length(header) as u32),
        0,
        &mut bytes,
    );
    put_at(&end.to_le_bytes(), 0x10, &mut bytes);
    put_at(&check.to_le_bytes(), 0x14, &mut bytes);
    put_at(&covers.to_le_bytes(), 0x18, &mut bytes);
    put_at(&version.to_le_bytes(), 0x1C, &mut bytes);
    bytes
}

// `$EeprMap` of a Length, up to its records.
pub fn map_bytes(length: u32, map: MapFields) -> [u8; 48]
    ensures { result ≡ map_of length map }
{
    let mut bytes = [0u8; 48];
    put_at(&head_bytes(EEPR_MAP, length), 0, &mut bytes);
    put_at(&map.partlabel, 0x10, &mut bytes);
    put_at(&map.blklength.to_le_bytes(), 0x20, &mut bytes);
    put_at(&map.pagesize.to_le_bytes(), 0x24, &mut bytes);
    put_at(&map.partsize.to_le_bytes(), 0x26, &mut bytes);
    bytes[0x2A] = map.busnumber;
    bytes[0x2B] = map.master;
    bytes[0x2C] = map.speed;
    bytes
}

// A map record. Of an offset over 32 bits the low ones are kept.
pub fn record_bytes(label: [u8; 16], offset: u64, address: u8) -> [u8; 32]
    ensures { result ≡ record_of label offset address }
{
    let mut bytes = [0u8; 32];
    put_at(&label, 0, &mut bytes);
    put_at(&0x20u32.to_le_bytes(), 0x10, &mut bytes);
    put_at(&offset.to_le_bytes()[..4], 0x14, &mut bytes);
    bytes[0x18] = address;
    bytes
}

// `$BrdInfo`.
pub fn board_bytes(board: BrdInfoFields) -> [u8; 96]
    ensures { result ≡ board_of board }
{
    let mut bytes = [0u8; 96];
    put_at(&head_bytes(BRD_INFO, 0x60), 0, &mut bytes);
    put_at(&board.manuname, 0x10, &mut bytes);
    put_at(&board.brdname, 0x20, &mut bytes);
    put_at(&board.brdserial, 0x30, &mut bytes);
    put_at(&board.boardid.to_le_bytes(), 0x40, &mut bytes);
    put_at(&board.fabid.to_le_bytes(), 0x44, &mut bytes);
    put_at(&board.ecid.to_le_bytes(), 0x48, &mut bytes);
    bytes[0x4C] = board.boardtype;
    bytes
}
