// Two searches along the items: the first of a tag on the list, and the first index that breaks rule 10.
ghost use Rattle.std.specs.Prelude.{◌≡◌, ◌<◌};
ghost use Rattle.chain.specs.Chain.{chain};
ghost use Rattle.chain.specs.First.{first};
ghost use Rattle.tiny_layout.specs.Layout.{check_place, next, items};
ghost use Rattle.tiny_layout.specs.Pool.{known_of};
ghost use Rattle.tiny_rules.specs.Rules.{on_known, bad_index};

use super::bytes::beyond_at;
use chain::{first_along, first_in};
use kinds::Kinds;
use octets::byte_at;
use tiny_layout::{Shape, check_place, head_size, next_place};

// The first item of a tag on the list, from a place on; none for a tag that is not on it.
pub fn first_known(image: &[u8], kinds: Kinds, tag: u8, from: usize) -> Option<usize>
    ensures { result ≡ first (known_of kinds image.now tag) (chain (next image.now) (check_place image.now) from) }
{
    if !kinds.has_tag(tag) {
        return None;
    }
    first_along(
        |at| (byte_at(image, at) == tag).then_some(at),
        |at| next_place(image, at as u8) as usize,
        from,
        check_place(image) as usize,
    )
}

// Rule 10 in the item at a place, if it is known: the first of its indexes that is not below the count.
fn index_at(image: &[u8], kinds: Kinds, count: usize, at: usize) -> Option<usize>
    requires { at < 256 }
    ensures { result ≡ on_known kinds image.now (bad_index image.now count) at }
{
    let tag = byte_at(image, at);
    if !kinds.has_tag(tag) {
        return None;
    }
    let start = at + head_size(tag) as usize;
    let end = start + Shape::of(tag).index_count() as usize;
    first_in(|index| beyond_at(image, count, index), start, end)
}

// Rule 10 along the items.
pub fn first_index(image: &[u8], kinds: Kinds, count: usize) -> Option<usize>
    ensures { result ≡ first (on_known kinds image.now (bad_index image.now count)) (items image.now) }
{
    first_along(
        |at| index_at(image, kinds, count, at),
        |at| next_place(image, at as u8) as usize,
        3,
        check_place(image) as usize,
    )
}
