// One walk along the items for the rules that are asked of each of them, 6, 7, 8 and 11, for the listed pool, the highest index and the count. What each
// rule finds first is carried along, and the table's order decides later which is told: so rule 11 may be asked before 9 and 10.
ghost use Rattle.std.specs.Prelude.{cond, ◌&&◌, ◌||◌, ◌≡◌, ℕ, ◌+◌, ◌≤◌, eqb, ltb, None};
ghost use Rattle.chain.specs.First.{when};
ghost use Rattle.kinds.specs.Kinds.{listed};
ghost use Rattle.kinds.specs.declared.Kind.{Kind};
ghost use Rattle.tiny_layout.specs.Tags.{shape_of};
ghost use Rattle.tiny_rules.specs.Findings.{head_at, Seen, Above, Noted, Walked};
ghost use Rattle.tiny_rules.specs.Rules.{bad_index, bad_field};

use super::fields::bad_field;
use kinds::Kinds;
use octets::byte_at;
use tiny_layout::{Shape, check_place, head_size, next_place};

// What is read of an item: its place, its tag, where its data begin, and where the next item starts.
#[derive(Clone, Copy)]
pub struct Head {
    pub place: u8,
    pub tag: u8,
    pub start: u16,
    pub after: u16,
}

// What a walk has found: the first place of each rule, the listed pool, a number above every index of a known item, and how many items there are.
#[derive(Clone, Copy, Default)]
pub struct Findings {
    pub passing: Option<usize>,
    pub reserved: Option<usize>,
    pub early: Option<usize>,
    pub pool: Option<usize>,
    pub field: Option<usize>,
    pub above: usize,
    pub count: usize,
}

// A number that is at least `least`, and above the n bytes from a place on.
fn above_bytes(image: &[u8], least: usize, from: u16, n: u8) -> usize
    ensures { Above image.now least from (from + n) result }
{
    let mut most = least;
    for at in from as usize..from as usize + n as usize {
        most = most.max(byte_at(image, at) as usize + 1);
    }
    most
}

// What a walk goes by: the image, the reader's list, and where the items end.
#[derive(Clone, Copy)]
pub struct Walk<'a> {
    pub image: &'a [u8],
    pub kinds: Kinds,
    pub end: u8,
}

impl<'a> Walk<'a> {
    // The head of the item at a place.
    fn head_at(&self, at: u8) -> Head
        ensures { result ≡ head_at self.now.image.now at }
    {
        let tag = byte_at(self.image, at as usize);
        Head {
            place: at,
            tag,
            start: at as u16 + head_size(tag) as u16,
            after: next_place(self.image, at),
        }
    }

    // Rule 6: the item, or its length byte, passes the check byte's place.
    fn passes_at(&self, item: Head) -> Option<usize>
        ensures { result ≡ when (ltb self.now.end item.start || ltb self.now.end item.after) item.place }
    {
        let end = self.end as u16;
        (end < item.start || end < item.after).then_some(item.place as usize)
    }

    // Rule 7: long tag 00.
    fn reserved_at(&self, item: Head) -> Option<usize>
        ensures { result ≡ when (eqb item.tag 0x00) item.place }
    {
        (item.tag == 0x00).then_some(item.place as usize)
    }

    // Whether the item is the listed pool.
    fn is_pool(&self, item: Head) -> bool
        ensures { result ≡ (listed self.now.kinds (Kind.Tag 0x01) && eqb item.tag 0x01) }
    {
        self.kinds.has_tag(0x01) && item.tag == 0x01
    }

    // The listed pool.
    fn pool_at(&self, item: Head) -> Option<usize>
        ensures { result ≡ when (listed self.now.kinds (Kind.Tag 0x01) && eqb item.tag 0x01) item.place }
    {
        self.is_pool(item).then_some(item.place as usize)
    }

    // Rule 8: a listed pool that ends before the check byte.
    fn early_at(&self, item: Head) -> Option<usize>
        ensures { result ≡ when (listed self.now.kinds (Kind.Tag 0x01) && eqb item.tag 0x01 && ltb item.after self.now.end) item.place }
    {
        (self.is_pool(item) && item.after < self.end as u16).then_some(item.place as usize)
    }

    // Rule 11, if the item is known.
    fn field_at(&self, item: Head) -> Option<usize>
        ensures { result ≡ cond (listed self.now.kinds (Kind.Tag item.tag)) (bad_field self.now.image.now (shape_of item.tag) item.start) None }
    {
        if !self.kinds.has_tag(item.tag) {
            return None;
        }
        bad_field(self.image, Shape::of(item.tag), item.start)
    }

    // A number that is at least `least`, and above the indexes of the item if it is known: with as many strings they do not break rule 10.
    fn above_at(&self, item: Head, least: usize) -> usize
        ensures { (least ≤ result) × ((n : ℕ) → result ≤ n → cond (listed self.now.kinds (Kind.Tag item.tag)) (bad_index self.now.image.now n (shape_of item.tag) item.start) None ≡ None) }
    {
        if !self.kinds.has_tag(item.tag) {
            return least;
        }
        let count = Shape::of(item.tag).index_count();
        above_bytes(self.image, least, item.start, count)
    }

    // What is found with the item at a place, after what was found before it.
    fn note(&self, item: Head, found: Findings) -> Findings
        requires head_of_item { Seen self.now.image.now self.now.end item }
        requires count_within_place { found.count ≤ item.place }
        ensures { Noted self.now.kinds self.now.image.now item.place found result }
    {
        Findings {
            passing: found.passing.or(self.passes_at(item)),
            reserved: found.reserved.or(self.reserved_at(item)),
            early: found.early.or(self.early_at(item)),
            pool: found.pool.or(self.pool_at(item)),
            field: found.field.or(self.field_at(item)),
            above: self.above_at(item, found.above),
            count: found.count + 1,
        }
    }
}

// What the whole walk finds.
pub(crate) fn walk_all(image: &[u8], kinds: Kinds) -> Findings
    ensures { Walked kinds image.now result }
{
    let end = check_place(image);
    let walk = Walk { image, kinds, end };
    let mut found = Findings::default();
    let mut at = 3;
    // No `for` over a range: each item tells where the next one starts.
    while at < end as usize {
        let item = walk.head_at(at as u8);
        found = walk.note(item, found);
        at = item.after as usize;
    }
    found
}
