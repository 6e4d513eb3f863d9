// The lines of a listing.
use super::fields::{
    put_board, put_eeprom, put_fpga, put_gpio_record, put_mac, put_map, put_map_record, put_memory,
    put_prom_sig,
};
use super::text::{Part, Signature};
use board::{Fields, Known, ShownItem, gpio_record_at, item_at, map_record_at};
use board_layout::{Records, next_place, record_place, struct_len};
use board_rules::judge;
use console::show::Place;
use console::words::InWords;
use kinds::Kinds;
use octets::le32_at;
use std::io;

// The line of a record.
fn put_record(
    out: &impl Print,
    which: Records,
    image: &[u8],
    number: usize,
    place: u32,
) -> io::Result<()> {
    match which {
        Records::Map => put_map_record(out, number, map_record_at(image, place)),
        Records::Gpio => put_gpio_record(out, number, gpio_record_at(image, place)),
    }
}

// The records of the structure at a place: how many, and a line for each. (All of an accepted image lie below 65,536.)
fn put_records(
    out: &impl Print,
    which: Records,
    image: &[u8],
    at: u32,
    count: usize,
) -> io::Result<()> {
    print!(out; "\n  records {count}")?;
    for number in 0..count {
        let Some(place) = record_place(which, image, at, number) else {
            return Ok(());
        };
        if 65536 <= place {
            return Ok(());
        }
        put_record(out, which, image, number, place as u32)?;
    }
    Ok(())
}

// The fields of a structure, by its table.
fn put_fields(out: &impl Print, image: &[u8], at: u32, fields: Fields) -> io::Result<()> {
    match fields {
        Fields::Eeprom(x) => put_eeprom(out, x),
        Fields::EeprMap(x) => {
            put_map(out, x)?;
            put_records(out, Records::Map, image, at, x.mapdata.length / 0x20)
        }
        Fields::BrdInfo(x) => put_board(out, x),
        Fields::PromSig(x) => put_prom_sig(out, x),
        Fields::AcpiTbl(span) => print!(out; "\n  AcpiTbl {}", Part(span)),
        Fields::FpgaNfo(x) => put_fpga(out, x),
        Fields::GpioDat(span) => put_records(out, Records::Gpio, image, at, span.length / 0x30),
        Fields::HdCodec(span) => print!(out; "\n  HdaCodec {}", Part(span)),
        Fields::Logo(span) => print!(out; "\n  LogoData {}", Part(span)),
        Fields::MemCnfg(x) => put_memory(out, x),
        Fields::MacInfo(x) => put_mac(out, x),
        Fields::UCode(span) => print!(out; "\n  UcodeData {}", Part(span)),
        Fields::Video(span) => print!(out; "\n  VideoData {}", Part(span)),
    }
}

// What a known structure says: its version and its Length, and then its fields.
fn put_known(out: &impl Print, image: &[u8], at: u32, known: Known) -> io::Result<()> {
    print!(out; " {}.{} Length {}", known.major, known.minor, known.length)?;
    put_fields(out, image, at, known.fields)
}

// The lines of an item.
fn put_item(out: &impl Print, image: &[u8], at: u32, shown: ShownItem) -> io::Result<()> {
    print!(out; "{} {}", Place(shown.place), Signature(shown.signature))?;
    match shown.item {
        Some(known) => put_known(out, image, at, known)?,
        None => print!(out; " unknown length {}", shown.length)?,
    }
    println!(out)
}

// The lines of all items. (An item tells where the next one starts, so this is no loop over a range.)
fn put_items(out: &impl Print, image: &[u8], kinds: Kinds) -> io::Result<()> {
    let end = struct_len(image) as usize;
    let mut at = 0;
    // No `for` over a range: each structure tells where the next one starts.
    while at < end {
        put_item(out, image, at as u32, item_at(image, kinds, at as u32))?;
        at = next_place(image, at as u32);
    }
    Ok(())
}

// The listing of an image.
pub fn list(out: &impl Print, image: &[u8]) -> io::Result<()> {
    let kinds = Kinds::full_list();
    match judge(image, kinds) {
        Ok(count) => {
            let length = struct_len(image);
            let version = le32_at(image, 0x1C);
            println!(out; "board 1 items {count} length {length} version {version}")?;
            put_items(out, image, kinds)
        }
        Err(refusal) => println!(out; "{}", InWords(refusal)),
    }
}
