// Refusals in words and in numbers.
ghost use Rattle.std.specs.Prelude.{Some};
ghost use Rattle.console.specs.Show.{numbers_text};

use super::show::Place;
use std::fmt;
use verdict::Refusal;

// What the number of a refusal says.
pub fn words(number: u8) -> &'static str {
    match number {
        1 => "fewer than 4 bytes",
        2 => "the first byte is not 56h",
        3 => "the version is not 2",
        4 => "the length byte is below 4 or above the number of bytes",
        5 => "the check byte is not the CRC-8 of the bytes before it",
        6 => "an item, or its length byte, does not end before the check byte",
        7 => "the long tag 00",
        8 => "the pool is not the last item",
        9 => "a pool byte is no character, or the last one has no end mark",
        10 => "an index is not below the string count",
        11 => "a major, minor, pair of characters or batch is out of range",
        20 => "fewer than 32 bytes, or more than 65536",
        21 => "the header has another signature, VerMajor or Length",
        22 => "StructLen is below the header's Length or above the number of bytes",
        23 => "no structure where one is due",
        24 => "a byte between structures is not zero",
        25 => "a structure is missing, or in the wrong order",
        26 => "the map, the board or the signature structure has a wrong VerMajor or Length",
        27 => "Crc32 or CrcLength is not what it should be",
        28 => "the board structure ends past 4096",
        29 => "HashType is not one that is known, or Length does not fit it",
        30 => "a field of the map is wrong",
        31 => "BoardType is above 1",
        32 => "a reserved byte is not zero",
        33 => "a structure is too short, or a field of it is wrong",
        34 => "two map records have the same label",
        40 => "the image would have over 255 bytes, or as a board over 65536",
        41 => "the lent buffer is too short for the image",
        42 => "no item, record or string has this number",
        43 => "the lent list or name buffer is too short",
        44 => "no name: not exactly one known serial number, or its text cannot be decoded",
        45 => "the further bytes have a $PromSig, which no writer makes",
        46 =>
            "an item's length is not its tag's, an item is a pool, or an item or record is cut short",
        _ => "no number of a refusal",
    }
}

// A refusal in words: its number, its place, and what the number says.
#[derive(Clone, Copy)]
pub struct InWords(pub Refusal);

impl fmt::Display for InWords {
    fn fmt<W: fmt::Write>(&self, f: &mut fmt::Formatter<W>) -> fmt::Result {
        let number = self.0.number;
        let place = self.0.place;
        write!(f, "refused {number} at {}: {}", Place(place), words(number))
    }
}

// A refusal in numbers: its number and its place.
#[derive(Clone, Copy)]
pub struct InNumbers(pub Refusal);

impl fmt::Display for InNumbers {
    ghost output = { λ r. Some (numbers_text r.0.number r.0.place) };

    fn fmt<W: fmt::Write>(&self, f: &mut fmt::Formatter<W>) -> fmt::Result {
        let number = self.0.number;
        let place = self.0.place;
        write!(f, "{number} {place}")
    }
}
