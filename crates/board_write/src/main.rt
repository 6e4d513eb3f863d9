// Writes board images: for each line of standard input, from the length of a buffer, which header, Version, the fields and records of the map,
// the fields of the board and further bytes. docs/WRITING.md has the form of these lines and of the answers.

#![tactic(auto)]

use board_writer::write;
use console::program::with_requests;
use console::request::{number_of, semicolons};
use console::written::put_written;
use fields::parts_of;
use std::io;

mod fields;

// The most records' and further bytes, and the longest buffer.
const MOST: usize = 65600;

// Answers a line of six semicolons; false where a part of it cannot be read.
fn answer(out: &impl Print, line: &[u8]) -> io::Result<bool> {
    let mut records = [0u8; MOST];
    let mut further = [0u8; MOST];
    let (Some(room), Some(parts)) = (
        number_of(line, 0, MOST as u32),
        parts_of(line, &mut records, &mut further),
    ) else {
        return Ok(false);
    };
    let mut lent = [0xAAu8; MOST];
    let buffer = &mut lent[..room];
    put_written(out, write(parts, buffer), buffer)?;
    Ok(true)
}

// Answers the request of a line, which has six semicolons; false where it is no request. (The arrays are in a function of their own, since they are filled when
// it is entered: a line with other semicolons does not pay for them.)
fn serve(out: &impl Print, line: &[u8]) -> io::Result<bool> {
    if semicolons(line) != 6 {
        return Ok(false);
    }
    answer(out, line)
}

fn main(rt: HostRuntime) -> io::Result<()> {
    with_requests(&rt, "board_write", "262,144", &mut [0u8; 262144], |line| {
        serve(&rt.stdout(), line)
    })
}
