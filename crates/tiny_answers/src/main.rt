// Prints every answer of a reader, for a run of images on standard input, so that it can be held against another reader's.
// tests/README.md has the form of the input and of the lines.

#![tactic(auto)]

use answers::Answers;
use console::program::{each_image, with_front};
use kinds::Kinds;
use octets::{byte_at, le16_at};
use std::io;

mod answers;
mod items;
mod names;
mod strings;
mod text;

// For each image of the input its list, as eight bits from 01 on, its length, two bytes, and its bytes.
fn put_all(out: &impl Print, input: &[u8]) -> io::Result<()> {
    each_image(
        input,
        3,
        |head| le16_at(head, 1) as usize,
        |head, image| {
            let list = byte_at(head, 0);
            println!(out; "list {list}")?;
            let kinds = Kinds::from_bits(list as u32);
            Answers { out, image, kinds }.put()
        },
    )
}

fn main(rt: HostRuntime) -> io::Result<()> {
    with_front(&rt, &mut [0u8; 65536], |input| put_all(&rt.stdout(), input))
}
