// The fields of structures, a line for each, and the lines of records.
use super::codes::{board_type, fpga_data_type, gpio_data_type, hash_type, speed};
use super::text::{Label, Name, Part};
use board::{
    BrdInfoFields, EeprMapFields, EepromFields, FpgaNfoFields, GpioRecord, MacInfoFields,
    MapRecord, MemCnfgFields, PromSigFields,
};
use console::show::Address;
use std::io;

pub fn put_eeprom(out: &impl Print, fields: EepromFields) -> io::Result<()> {
    print!(out; "\n  StructLen {}", fields.structlen)?;
    print!(out; "\n  CrcLength {}", fields.crclength)?;
    print!(out; "\n  Version {}", fields.version)
}

pub fn put_map(out: &impl Print, fields: EeprMapFields) -> io::Result<()> {
    print!(out; "\n  PartLabel {}", Label(&fields.partlabel))?;
    print!(out; "\n  BlkLength {}", fields.blklength)?;
    print!(out; "\n  PageSize {}", fields.pagesize)?;
    print!(out; "\n  PartSize {}", fields.partsize)?;
    print!(out; "\n  BusNumber {}", fields.busnumber)?;
    print!(out; "\n  Master {}", fields.master)?;
    print!(out; "\n  Speed {}{}", fields.speed, speed(fields.speed))
}

pub fn put_board(out: &impl Print, fields: BrdInfoFields) -> io::Result<()> {
    print!(out; "\n  ManuName {}", Name(&fields.manuname))?;
    print!(out; "\n  BrdName {}", Name(&fields.brdname))?;
    print!(out; "\n  BrdSerial {}", Name(&fields.brdserial))?;
    print!(out; "\n  BoardId {:08X}h", fields.boardid)?;
    print!(out; "\n  FabId {:08X}h", fields.fabid)?;
    print!(out; "\n  EcId {:08X}h", fields.ecid)?;
    print!(out;
        "\n  BoardType {}{}",
        fields.boardtype,
        board_type(fields.boardtype)
    )
}

pub fn put_prom_sig(out: &impl Print, fields: PromSigFields) -> io::Result<()> {
    print!(out;
        "\n  HashType {:04X}h{}",
        fields.hashtype,
        hash_type(fields.hashtype)
    )?;
    print!(out; "\n  EepromSig {}", Part(fields.eepromsig))
}

pub fn put_fpga(out: &impl Print, fields: FpgaNfoFields) -> io::Result<()> {
    print!(out;
        "\n  DataType {}{}",
        fields.datatype,
        fpga_data_type(fields.datatype)
    )?;
    print!(out; "\n  DevNum {}", fields.devnum)?;
    print!(out; "\n  FuncNum {}", fields.funcnum)?;
    print!(out; "\n  FpgaData {}", Part(fields.fpgadata))
}

pub fn put_memory(out: &impl Print, fields: MemCnfgFields) -> io::Result<()> {
    print!(out; "\n  SpdSlot {:04X}h", fields.spdslot)?;
    print!(out; "\n  MemData {}", Part(fields.memdata))
}

pub fn put_mac(out: &impl Print, fields: MacInfoFields) -> io::Result<()> {
    print!(out; "\n  NicId {}", Name(&fields.nicid))?;
    print!(out; "\n  MacAddr {}", Address(fields.macaddr))?;
    print!(out; "\n  NicNum {}", fields.nicnum)?;
    print!(out; "\n  NicData {}", Part(fields.nicdata))
}

// The line of a record begins with its number.
pub fn put_map_record(out: &impl Print, number: usize, record: MapRecord) -> io::Result<()> {
    print!(out; "\n    {number} {}", Label(&record.maplabel))?;
    print!(out; " Length {} Offset {}", record.length, record.offset.0)?;
    print!(out; " Address {:02X}h", record.address.0)
}

pub fn put_gpio_record(out: &impl Print, number: usize, record: GpioRecord) -> io::Result<()> {
    print!(out; "\n    {number} {}", Label(&record.gpiolabel))?;
    print!(out; " Length {} Offset {}", record.length, record.offset)?;
    print!(out;
        " AndData {:08X}h OrData {:08X}h",
        record.anddata, record.ordata
    )?;
    print!(out;
        " DataSize {} DataType {}{}",
        record.datasize,
        record.datatype,
        gpio_data_type(record.datatype)
    )
}
