// Writes tiny images: for each line of standard input, from the length of a buffer, a run of items and a pool. docs/WRITING.md has the form
// of these lines and of the answers.

#![tactic(auto)]

use console::program::with_requests;
use console::request::{bytes_of, number_of, semicolons};
use console::written::put_written;
use std::io;
use tiny_writer::write;

// The most bytes that a part may have, and the longest buffer.
const MOST: usize = 1024;

// Answers a line of one semicolon, or of two if it has a pool; false where a part of it cannot be read.
fn answer(out: &impl Print, line: &[u8], cuts: usize) -> io::Result<bool> {
    let mut items = [0u8; MOST];
    let mut data = [0u8; MOST];
    let (Some(room), Some(run), Some(size)) = (
        number_of(line, 0, MOST as u32),
        bytes_of(line, 1, &mut items),
        bytes_of(line, 2, &mut data),
    ) else {
        return Ok(false);
    };
    let mut lent = [0xAAu8; MOST];
    let buffer = &mut lent[..room];
    let pool = (cuts == 2).then_some(&data[..size]);
    put_written(out, write(&items[..run], pool, buffer), buffer)?;
    Ok(true)
}

// Answers the request of a line, which has a pool where it has two semicolons; false where it is no request. (The arrays are in a function of their own, since
// they are filled when it is entered: a line with other semicolons does not pay for them.)
fn serve(out: &impl Print, line: &[u8]) -> io::Result<bool> {
    let cuts = semicolons(line);
    if cuts != 1 && cuts != 2 {
        return Ok(false);
    }
    answer(out, line, cuts)
}

fn main(rt: HostRuntime) -> io::Result<()> {
    with_requests(&rt, "tiny_write", "65,536", &mut [0u8; 65536], |line| {
        serve(&rt.stdout(), line)
    })
}
