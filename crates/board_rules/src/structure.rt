// A structure of a board image, met on the first walk: what rules 23, 24 and 25 say of it, by its head, which is read once.
ghost use Rattle.std.specs.Prelude.{true, ◌≡◌, eqb};
ghost use Rattle.board_layout.specs.Layout.{signature_at, length_at, struct_len, shape_at, end_at, next};
ghost use Rattle.octets.specs.Bytes.{Octets, byte};
ghost use Rattle.board_layout.specs.Shapes.{knows};
ghost use Rattle.board_rules.specs.Findings.{Seen, order_from, rest_after, Plain};
ghost use Rattle.board_rules.specs.Rules.{overdue, misplaced, gap_used, out_of_order, is_prom_sig};

use board_layout::{Head, is_known, next_after, shape_of};
use kinds::{BRD_INFO, EEPR_MAP, EEPROM, Kinds, PROM_SIG};
use octets::first_nonzero;

// The structure at a place in an image, by its head. `all` is StructLen.
#[derive(Clone, Copy)]
pub struct Structure<'a> {
    pub image: &'a [u8],
    pub all: u32,
    pub at: u32,
    pub head: Head,
    ghost bytes: { Octets image.now },
    ghost seen: { Seen image.now all at head },
}

impl<'a> Structure<'a> {
    // Its signature.
    fn signature(&self) -> u64
        ensures { result ≡ signature_at self.now.image.now self.now.at }
    {
        self.head.signature
    }

    // Its Length.
    fn length(&self) -> u32
        ensures { result ≡ length_at self.now.image.now self.now.at }
    {
        self.head.length
    }

    // The first byte of its signature.
    fn mark(&self) -> u64
        ensures { result ≡ byte self.now.image.now self.now.at }
    {
        self.head.signature % 256
    }

    // Where it starts.
    fn place(&self) -> usize
        ensures { result ≡ self.now.at }
    {
        self.at as usize
    }

    // Where it ends.
    #[tactic(auto, unfolding(board_layout::specs::Layout::end_at))]
    fn finish(&self) -> usize
        ensures { result ≡ end_at self.now.image.now self.now.at }
    {
        self.at as usize + self.length() as usize
    }

    // Where the next one starts.
    #[tactic(auto, unfolding(board_layout::specs::Layout::next))]
    pub fn after(&self) -> usize
        ensures { result ≡ next self.now.image.now self.now.at }
    {
        next_after(self.at, self.length())
    }

    // Whether it ends at StructLen.
    fn is_last(&self) -> bool
        ensures { result ≡ eqb (end_at self.now.image.now self.now.at) (struct_len self.now.image.now) }
    {
        self.finish() == self.all as usize
    }

    // Whether a reader with this list knows it.
    #[tactic(auto, unfolding(board_layout::specs::Layout::shape_at))]
    fn is_known(&self, kinds: Kinds) -> bool
        ensures { result ≡ knows kinds (shape_at self.now.image.now self.now.at) }
    {
        is_known(kinds, shape_of(self.head.signature, self.head.major))
    }

    // Where the next structure is due, if no bytes are left for it.
    fn overdue(&self) -> Option<usize>
        ensures { result ≡ overdue self.now.image.now self.now.at }
    {
        let after = self.after();
        (!self.is_last() && self.all as usize <= after).then_some(after)
    }

    // Rule 23: no good structure where one is due, or where the next one is due.
    pub fn misplaced(&self) -> Option<usize>
        ensures { result ≡ misplaced self.now.image.now self.now.at }
    {
        let place = self.place();
        let all = self.all as usize;
        (all < place + 16)
            .then_some(place)
            .or((self.mark() != 0x24).then_some(place))
            .or((self.length() < 16).then_some(place))
            .or((all < self.finish()).then_some(place))
            .or(self.overdue())
    }

    // Rule 24: a byte that is not zero between this structure and the next.
    #[tactic(auto, unfolding(crate::specs::Rules::gap_used))]
    pub fn gap_used(&self) -> Option<usize>
        ensures { result ≡ gap_used self.now.image.now self.now.at }
    {
        if self.is_last() {
            return None;
        }
        let finish = self.finish();
        first_nonzero(self.image, finish, 0, self.after() - finish)
    }

    // Rule 25 after the third structure: one that comes too late, or the signature structure too early.
    #[tactic(auto, unfolding(crate::specs::Rules::out_of_order))]
    fn out_of_order(&self) -> Option<usize>
        ensures { result ≡ out_of_order self.now.image.now self.now.at }
    {
        let place = self.place();
        match self.signature() {
            EEPR_MAP | BRD_INFO | EEPROM => Some(place),
            PROM_SIG if !self.is_last() => Some(place),
            _ => None,
        }
    }

    // The same at a place from `later` on.
    #[tactic(auto, unfolding(crate::specs::Findings::order_from))]
    pub fn order_from(&self, later: usize) -> Option<usize>
        ensures { result ≡ order_from later self.now.image.now self.now.at }
    {
        if self.place() < later {
            return None;
        }
        self.out_of_order()
    }

    // The signature structure.
    pub fn prom_sig(&self) -> Option<usize>
        ensures { result ≡ is_prom_sig self.now.image.now self.now.at }
    {
        (self.signature() == PROM_SIG).then_some(self.place())
    }

    // From where on no structure is known, as far as this one.
    pub fn rest_after(&self, kinds: Kinds, rest: usize) -> usize
        ensures { result ≡ rest_after kinds self.now.image.now self.now.at rest }
    {
        if self.is_known(kinds) {
            self.after()
        } else {
            rest
        }
    }

    // Whether there is nothing to note of it but that it is there: it is not known, keeps rule 23, and ends where the next one starts.
    pub fn is_plain(&self, kinds: Kinds) -> bool
        ensures { result ≡ true → Plain kinds self.now.image.now self.now.at }
    {
        if self.is_known(kinds) || self.mark() != 0x24 || self.length() < 16 {
            return false;
        }
        let after = self.after();
        after <= self.all as usize && self.finish() == after
    }
}
