// Items of both formats: the one at a place, and the one of a number.
ghost use Rattle.std.specs.Prelude.{◌≡◌};
ghost use Rattle.reader.specs.Items.{pool_of};
ghost use Rattle.reader.specs.Answers.{item_numbered};

use super::{Format, Item};
use kinds::Kinds;
use tiny_layout::Pool;
use verdict::Refusal;

// The pool that the strings of an image lie in; board images have none.
pub fn pool_of(format: Format, image: &[u8], kinds: Kinds) -> Pool
    ensures { result ≡ pool_of format kinds image.now }
{
    match format {
        Format::Tiny => tiny_rules::pool_of(image, kinds),
        Format::Board => Pool { from: 0, to: 0 },
    }
}

// The item of a number, counted from 0 in image order.
pub fn item_numbered(
    format: Format,
    image: &[u8],
    kinds: Kinds,
    number: usize,
) -> Result<Item, Refusal>
    ensures { result ≡ item_numbered format kinds image.now number }
{
    match format {
        Format::Tiny => Ok(Item::Tiny(tiny::item_numbered(image, kinds, number)?)),
        Format::Board => Ok(Item::Board(board::item_numbered(image, kinds, number)?)),
    }
}
