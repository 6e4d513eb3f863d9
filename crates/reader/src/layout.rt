// Where the items of an image lie. These functions take any image; a place past its end reads as 0.
ghost use Rattle.std.specs.Prelude.{◌≡◌};
ghost use Rattle.chain.specs.Onward.{onward};
ghost use Rattle.reader.specs.Formats.{start, end, next};

use super::Format;

// The place of the first item.
pub fn first_place(format: Format) -> u32
    ensures { result ≡ start format }
{
    match format {
        Format::Tiny => 3,
        Format::Board => 0,
    }
}

// Where the items end.
pub fn items_end(format: Format, image: &[u8]) -> u32
    ensures { result ≡ end format image.now }
{
    match format {
        Format::Tiny => tiny_layout::check_place(image) as u32,
        Format::Board => board_layout::struct_len(image),
    }
}

// Where the item after the one at a place starts.
fn next_from(format: Format, image: &[u8], at: u32) -> usize
    ensures { result ≡ next format image.now at }
{
    match format {
        Format::Tiny => at as usize + tiny_layout::item_size(image, at as usize) as usize,
        Format::Board => board_layout::next_place(image, at),
    }
}

// Where a walk goes on from a place, if the items end at `end`: to the next item, or to the end.
pub fn go_on(format: Format, image: &[u8], end: u32, at: u32) -> u32
    ensures { result ≡ onward (next format image.now) end at }
{
    if end <= at {
        return at;
    }
    let after = next_from(format, image, at);
    if end as usize <= after {
        return end;
    }
    after as u32
}
