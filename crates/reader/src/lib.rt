// One reader over both formats: the judge, an item by its number, the list of entries, and a walk from item to item. The order everywhere: the image's
// own refusal, then 42 or 43. A refused call changes no entry of a lent list.

#![tactic(auto)]

ghost use Rattle.std.specs.Prelude.{◌≡◌};
ghost use Rattle.octets.specs.Bytes.{Octets};
ghost use Rattle.reader.specs.Formats.{judged};

use kinds::Kinds;
use verdict::Refusal;

mod entries;
mod items;
mod layout;
mod steps;

pub use entries::list;
pub use items::item_numbered;
pub use steps::{fresh, step, step_numbered};

// The layout of an image. (A value: C gives it as a number, and the promises speak of any. A type parameter with a trait would be chosen by a match too.)
#[derive(Clone, Copy)]
pub enum Format {
    Tiny,
    Board,
}

// One item of the list: its kind (the tag, or the eight bytes of the signature as the number they spell, the first lowest), the place of its first byte, its
// data length, and whether it is known. (C reads it: so the kind is a number.)
#[repr(C)]
#[derive(Clone, Copy)]
pub struct Entry {
    pub kind: u64,
    pub place: usize,
    pub length: usize,
    pub known: bool,
}

// An item as its format shows it.
#[derive(Clone, Copy)]
pub enum Item {
    Tiny(tiny::ShownItem),
    Board(board::ShownItem),
}

// How far a walk is: the verdict on its image, the pool that its items' strings lie in, where the items end, and the place of the next item, or that end.
#[derive(Clone, Copy)]
pub struct Position {
    pub verdict: Result<usize, Refusal>,
    pub pool: tiny_layout::Pool,
    pub end: u32,
    pub at: u32,
}

// What a step shows: an item, that none is left, or the image's refusal. A walk that has not stepped shows nothing. (Four cases: a Result and two Options,
// one in the other, would name none of them.)
#[derive(Clone, Copy)]
pub enum StepAnswer {
    Nothing,
    Shown(Item),
    NoneLeft,
    Refused(Refusal),
}

// A walk over a lent image: the image, its format, the reader's list, how far it is, and what its last step showed.
#[derive(Clone, Copy)]
pub struct Walk<'a> {
    pub image: &'a [u8],
    pub format: Format,
    pub kinds: Kinds,
    pub position: Position,
    pub shows: StepAnswer,
}

// Whether an image is accepted by a reader with this list, and how many items it has; or the refusal. What is lent is of bytes: so much of every image that is
// asked about is known without a premise.
pub fn judge(format: Format, image: &[u8], kinds: Kinds) -> Result<usize, Refusal>
    ensures { (result ≡ judged format kinds image.now) × Octets image.now }
{
    match format {
        Format::Tiny => tiny_rules::judge(image, kinds),
        Format::Board => board_rules::judge(image, kinds),
    }
}
