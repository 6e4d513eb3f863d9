// Prints the choice between two board images and the part that is handed back, for a run of pairs on standard input, so that they can be held against
// another program's. tests/README.md has the form of the input and of the lines.

#![tactic(auto)]

ghost use Rattle.std.specs.Prelude.{◌≤◌, length, IfSome};

use choice::{Part, choice, chosen};
use console::program::with_front;
use console::put_spaced;
use console::words::InNumbers;
use kinds::Kinds;
use octets::le32_at;
use std::io;

// The choice between two images, and the part that is handed back.
fn put_choice(out: &impl Print, firmware: &[u8], eeprom: &[u8], kinds: Kinds) -> io::Result<()> {
    match choice(firmware, eeprom, kinds) {
        Ok(Part::Firmware(n)) => println!(out; "firmware {n}")?,
        Ok(Part::Eeprom(n)) => println!(out; "eeprom {n}")?,
        Err(refusal) => println!(out; "neither {}", InNumbers(refusal))?,
    }
    print!(out; "part")?;
    put_spaced(out, chosen(firmware, eeprom, kinds))?;
    println!(out)
}

// An image with its length, four bytes, in front, and what is behind it; none where the length is over what is there.
fn cut(input: &[u8]) -> Option<(&[u8], &[u8])>
    ensures { IfSome result (λ parts. length parts.1.now ≤ length input.now) }
{
    let (_, images) = input.split_at_checked(4)?;
    images.split_at_checked(le32_at(input, 0) as usize)
}

// For each pair of the input its list, four bytes, and the two images, each with its length, four bytes, in front.
fn put_all(out: &impl Print, input: &[u8]) -> io::Result<()> {
    let mut rest = input;
    while let Some((_, pair)) = rest.split_at_checked(4) {
        let list = le32_at(rest, 0);
        let Some((firmware, second)) = cut(pair) else {
            return Ok(());
        };
        let Some((eeprom, more)) = cut(second) else {
            return Ok(());
        };
        println!(out; "list {list}")?;
        put_choice(out, firmware, eeprom, Kinds::from_bits(list))?;
        rest = more;
    }
    Ok(())
}

fn main(rt: HostRuntime) -> io::Result<()> {
    with_front(
        &rt,
        &mut [0u8; 262144],
        |input| put_all(&rt.stdout(), input),
    )
}
