// What is shown of a record, and which records an item has.
ghost use Rattle.std.specs.Prelude.{◌≡◌};
ghost use Rattle.board.specs.Answers.{is_gpio, gpio_records_at};
ghost use Rattle.board.specs.Records.{map_record_at, gpio_record_at};
ghost use Rattle.board_layout.specs.Layout.{structures};
ghost use Rattle.chain.specs.Nth.{nth};

use super::{BusAddress, GpioRecord, ImageOffset, MapRecord};
use board_layout::{Records, Shape, is_known, record_place, shape_at, structure_place};
use kinds::Kinds;
use octets::{byte_at, bytes_at, le32_at};

// The record of the map at a place.
#[tactic(auto, unfolding(crate::specs::Records::map_record_at))]
pub fn map_record_at(image: &[u8], at: u32) -> MapRecord
    ensures { result ≡ map_record_at image.now at }
{
    let p = at as usize;
    MapRecord {
        maplabel: bytes_at(image, p),
        length: le32_at(image, p + 0x10),
        offset: ImageOffset(le32_at(image, p + 0x14)),
        address: BusAddress(byte_at(image, p + 0x18)),
    }
}

// The record of GPIO data at a place.
#[tactic(auto, unfolding(crate::specs::Records::gpio_record_at))]
pub fn gpio_record_at(image: &[u8], at: u32) -> GpioRecord
    ensures { result ≡ gpio_record_at image.now at }
{
    let p = at as usize;
    GpioRecord {
        gpiolabel: bytes_at(image, p),
        length: le32_at(image, p + 0x10),
        offset: le32_at(image, p + 0x14),
        anddata: le32_at(image, p + 0x18),
        ordata: le32_at(image, p + 0x1C),
        datasize: byte_at(image, p + 0x20),
        datatype: byte_at(image, p + 0x21),
    }
}

// Whether a table is that of GPIO data.
fn is_gpio(shape: Shape) -> bool
    ensures { result ≡ is_gpio shape }
{
    matches!(shape, Shape::GpioDat)
}

// The place of the record of a number in the item of a number, if that holds known GPIO data.
pub fn gpio_record_of(image: &[u8], kinds: Kinds, item: usize, number: usize) -> Option<usize>
    ensures { result ≡ gpio_records_at kinds image.now number (nth (structures image.now) item) }
{
    let at = structure_place(image, item)? as u32;
    let shape = shape_at(image, at);
    if is_gpio(shape) && is_known(kinds, shape) {
        record_place(Records::Gpio, image, at, number)
    } else {
        None
    }
}
