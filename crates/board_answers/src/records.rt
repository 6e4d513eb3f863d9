// Records by number.
ghost use Rattle.std.specs.Prelude.{◌≡◌};

use super::answers::Answers;
use board::{GpioRecord, MapRecord, gpio_record_numbered, map_record_numbered};
use console::far::{FAR, LAST};
use console::show::Hex;
use console::words::InNumbers;
use std::io;
use verdict::Refusal;

fn put_map_fields(out: &impl Print, x: MapRecord) -> io::Result<()> {
    print!(out; " MapLabel {} Length {}", Hex(&x.maplabel), x.length)?;
    println!(out; " Offset {} Address {}", x.offset.0, x.address.0)
}

fn put_gpio_fields(out: &impl Print, x: GpioRecord) -> io::Result<()> {
    print!(out; " GpioLabel {} Length {}", Hex(&x.gpiolabel), x.length)?;
    print!(out;
        " Offset {} AndData {} OrData {}",
        x.offset, x.anddata, x.ordata
    )?;
    println!(out; " DataSize {} DataType {}", x.datasize, x.datatype)
}

// The records up to the first that is refused, of which an image has less than 65,536, and what is answered at two numbers far past them. `put_record` prints
// the answer at a number, and tells whether it is a record.
fn put_records<F: Fn(usize) -> io::Result<bool>>(put_record: F) -> io::Result<()>
    requires { F.IsAlwaysCallable put_record }
{
    for number in 0..65536 {
        if !put_record(number)? {
            break;
        }
    }
    put_record(FAR)?;
    put_record(LAST)?;
    Ok(())
}

// The end of the line of a record, or of a refusal; whether it is a record.
fn put_answer<R, F: FnOnce(R) -> io::Result<()>>(
    out: &impl Print,
    answer: Result<R, Refusal>,
    put_fields: F,
) -> io::Result<bool>
    requires { F.IsAlwaysCallable put_fields }
{
    match answer {
        Ok(record) => {
            put_fields(record)?;
            Ok(true)
        }
        Err(refusal) => {
            println!(out; " refused {}", InNumbers(refusal))?;
            Ok(false)
        }
    }
}

impl<P: Print> Answers<'_, P> {
    // The answers for the records of the map.
    pub fn put_map_records(&self) -> io::Result<()> {
        let out = self.out;
        put_records(|number| {
            print!(out; "map {number}")?;
            let answer = map_record_numbered(self.image, self.kinds, number);
            put_answer(out, answer, |record| put_map_fields(out, record))
        })
    }

    // The answers for the records of an item's GPIO data.
    pub fn put_gpio_records(&self, item: usize) -> io::Result<()> {
        let out = self.out;
        put_records(|number| {
            print!(out; "gpio {item} {number}")?;
            let answer = gpio_record_numbered(self.image, self.kinds, item, number);
            put_answer(out, answer, |record| put_gpio_fields(out, record))
        })
    }
}
