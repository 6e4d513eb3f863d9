// Lists the tiny image on standard input with the full list of known kinds. docs/LISTING.md has the format.

#![tactic(auto)]

use console::program::with_image;
use std::io;

mod fields;
mod lines;

// A tiny image has at most 255 bytes, and what is lent past them is not looked at: so 256 bytes are read, and no more.
fn main(rt: HostRuntime) -> io::Result<()> {
    with_image(&rt, "tiny_list", &mut [0u8; 256], |image| {
        lines::list(&rt.stdout(), image)
    })
}
