// Fields as they are shown.
use board::{
    BrdInfoFields, EeprMapFields, EepromFields, Fields, FpgaNfoFields, Known, MacInfoFields,
    MemCnfgFields, PromSigFields, ShownItem,
};
use console::show::Hex;
use octets::Span;
use std::{fmt, io};

// What follows the fields.
#[derive(Clone, Copy)]
struct Data(Span);

impl fmt::Display for Data {
    fn fmt<W: fmt::Write>(&self, f: &mut fmt::Formatter<W>) -> fmt::Result {
        let place = self.0.place;
        let length = self.0.length;
        write!(f, " data {place} {length}")
    }
}

fn put_eeprom(out: &impl Print, x: EepromFields) -> io::Result<()> {
    print!(out;
        " StructLen {} CrcLength {} Version {}",
        x.structlen, x.crclength, x.version
    )
}

fn put_map(out: &impl Print, x: EeprMapFields) -> io::Result<()> {
    print!(out;
        " PartLabel {} BlkLength {}",
        Hex(&x.partlabel),
        x.blklength
    )?;
    print!(out; " PageSize {} PartSize {}", x.pagesize, x.partsize)?;
    print!(out;
        " BusNumber {} Master {} Speed {}",
        x.busnumber, x.master, x.speed
    )?;
    print!(out; "{}", Data(x.mapdata))
}

fn put_board(out: &impl Print, x: BrdInfoFields) -> io::Result<()> {
    print!(out;
        " ManuName {} BrdName {}",
        Hex(&x.manuname),
        Hex(&x.brdname)
    )?;
    print!(out; " BrdSerial {}", Hex(&x.brdserial))?;
    print!(out; " BoardId {} FabId {} EcId {}", x.boardid, x.fabid, x.ecid)?;
    print!(out; " BoardType {}", x.boardtype)
}

fn put_prom_sig(out: &impl Print, x: PromSigFields) -> io::Result<()> {
    print!(out; " HashType {}{}", x.hashtype, Data(x.eepromsig))
}

fn put_fpga(out: &impl Print, x: FpgaNfoFields) -> io::Result<()> {
    print!(out;
        " DataType {} DevNum {} FuncNum {}",
        x.datatype, x.devnum, x.funcnum
    )?;
    print!(out; "{}", Data(x.fpgadata))
}

fn put_memory(out: &impl Print, x: MemCnfgFields) -> io::Result<()> {
    print!(out; " SpdSlot {}{}", x.spdslot, Data(x.memdata))
}

fn put_mac(out: &impl Print, x: MacInfoFields) -> io::Result<()> {
    print!(out; " NicId {} MacAddr {}", Hex(&x.nicid), Hex(&x.macaddr))?;
    print!(out; " NicNum {}{}", x.nicnum, Data(x.nicdata))
}

fn put_fields(out: &impl Print, fields: Fields) -> io::Result<()> {
    match fields {
        Fields::Eeprom(x) => put_eeprom(out, x),
        Fields::EeprMap(x) => put_map(out, x),
        Fields::BrdInfo(x) => put_board(out, x),
        Fields::PromSig(x) => put_prom_sig(out, x),
        Fields::FpgaNfo(x) => put_fpga(out, x),
        Fields::MemCnfg(x) => put_memory(out, x),
        Fields::MacInfo(x) => put_mac(out, x),
        Fields::AcpiTbl(span)
        | Fields::GpioDat(span)
        | Fields::HdCodec(span)
        | Fields::Logo(span)
        | Fields::UCode(span)
        | Fields::Video(span) => print!(out; "{}", Data(span)),
    }
}

fn put_known(out: &impl Print, known: Known) -> io::Result<()> {
    print!(out;
        " major {} minor {} Length {}",
        known.major, known.minor, known.length
    )?;
    put_fields(out, known.fields)
}

// An item, as a line.
pub fn put_shown(out: &impl Print, shown: ShownItem) -> io::Result<()> {
    print!(out; "kind {}", Hex(&shown.signature.to_le_bytes()))?;
    print!(out; " place {} length {}", shown.place, shown.length)?;
    match shown.item {
        Some(known) => put_known(out, known)?,
        None => print!(out; " unknown")?,
    }
    println!(out)
}
