// Lists the board image on standard input with the full list of known kinds. docs/LISTING.md has the format.

#![tactic(auto)]

use console::program::with_image;
use std::io;

mod codes;
mod fields;
mod lines;
mod text;

// Over 65,536 bytes are refused whatever they are: so 65,537 bytes are read, and no more.
fn main(rt: HostRuntime) -> io::Result<()> {
    with_image(&rt, "board_list", &mut [0u8; 65537], |image| {
        lines::list(&rt.stdout(), image)
    })
}
