// What the parts of a request give: which header, Version, the fields of the map and its records, those of the board and further bytes.
ghost use Rattle.std.specs.Prelude.{◌<◌, ◌^◌};

use board::BrdInfoFields;
use board_layout::header_with;
use board_rules::is_header_length;
use board_writer::{MapFields, Parts};
use console::request::bytes_of;
use octets::{byte_at, bytes_at, le16_at, le32_at};

// The N bytes that part n of a line gives; none where it gives another number of bytes, or cannot be read.
fn exactly<const N: usize>(line: &[u8], n: usize) -> Option<[u8; N]>
    requires { N < 2 ^ 63 }
{
    let mut bytes = [0u8; N];
    let count = bytes_of(line, n, &mut bytes)?;
    (count == N).then_some(bytes)
}

// The fields of the map, as they lie in `$EeprMap` from 10h on.
fn map_fields(bytes: &[u8]) -> MapFields {
    MapFields {
        partlabel: bytes_at(bytes, 0),
        blklength: le32_at(bytes, 0x10),
        pagesize: le16_at(bytes, 0x14),
        partsize: le32_at(bytes, 0x16),
        busnumber: byte_at(bytes, 0x1A),
        master: byte_at(bytes, 0x1B),
        speed: byte_at(bytes, 0x1C),
    }
}

// The fields of the board, as they lie in `$BrdInfo` from 10h on.
fn board_fields(bytes: &[u8]) -> BrdInfoFields {
    BrdInfoFields {
        manuname: bytes_at(bytes, 0),
        brdname: bytes_at(bytes, 0x10),
        brdserial: bytes_at(bytes, 0x20),
        boardid: le32_at(bytes, 0x30),
        fabid: le32_at(bytes, 0x34),
        ecid: le32_at(bytes, 0x38),
        boardtype: byte_at(bytes, 0x3C),
    }
}

// What parts 1 to 6 of a line give, of which the records and the further bytes are put into lent buffers; none where one of these parts cannot be read.
pub fn parts_of<'a>(
    line: &[u8],
    records: &'a mut [u8],
    further: &'a mut [u8],
) -> Option<Parts<'a>> {
    let [header] = exactly::<1>(line, 1)?;
    let length = header as u32;
    if !is_header_length(length) {
        return None;
    }
    let version = exactly::<4>(line, 2)?;
    let map = exactly::<29>(line, 3)?;
    let run = bytes_of(line, 4, records)?;
    let board = exactly::<61>(line, 5)?;
    let more = bytes_of(line, 6, further)?;
    Some(Parts {
        header: header_with(length),
        version: le32_at(&version, 0),
        map: map_fields(&map),
        records: &records[..run],
        board: board_fields(&board),
        further: &further[..more],
    })
}
