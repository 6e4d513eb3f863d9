// Rule 30 at the fields of the map.
ghost use Rattle.std.specs.Prelude.{◌≡◌};
ghost use Rattle.board_fields.specs.Map.{bad_map_field};
ghost use Rattle.board_layout.specs.Layout.{map_count};

use board_layout::{length_at, struct_len};
use board_records::times;
use octets::label::bad_label;
use octets::{byte_at, le32_at};

// How many records a map has, by its Length.
fn map_count(image: &[u8], at: u32) -> u32
    ensures { result ≡ map_count image.now at }
{
    length_at(image, at).saturating_sub(0x30) / 0x20
}

// The fields of the map at a place.
pub fn bad_map_field(image: &[u8], at: u32) -> Option<usize>
    ensures { result ≡ bad_map_field image.now at }
{
    let map = at as usize;
    let block = le32_at(image, map + 0x20);
    let part = le32_at(image, map + 0x26);
    let whole = part as u64 == times(map_count(image, at), block);
    bad_label(image, map + 0x10)
        .or((block == 0).then_some(map + 0x20))
        .or((!whole).then_some(map + 0x26))
        .or((part < struct_len(image)).then_some(map + 0x26))
        .or((1 < byte_at(image, map + 0x2B)).then_some(map + 0x2B))
        .or((3 < byte_at(image, map + 0x2C)).then_some(map + 0x2C))
}
