// Prints every answer of a reader of board images, for a run of images on standard input, so that it can be held against another reader's.
// tests/README.md has the form of the input and of the lines.

#![tactic(auto)]

use answers::Answers;
use console::program::{each_image, with_front};
use kinds::Kinds;
use octets::le32_at;
use std::io;

mod answers;
mod items;
mod records;
mod shown;

// For each image of the input its list, four bytes, its length, four bytes, and its bytes.
fn put_all(out: &impl Print, input: &[u8]) -> io::Result<()> {
    each_image(
        input,
        8,
        |head| le32_at(head, 4) as usize,
        |head, image| {
            let list = le32_at(head, 0);
            println!(out; "list {list}")?;
            let kinds = Kinds::from_bits(list);
            Answers { out, image, kinds }.put()
        },
    )
}

fn main(rt: HostRuntime) -> io::Result<()> {
    with_front(&rt, &mut [0u8; 262144], |input| {
        put_all(&rt.stdout(), input)
    })
}
