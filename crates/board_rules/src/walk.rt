// The first walk along the structures, for rules 23, 24 and 25: each head is read once, and what each rule finds first is carried along, with the signature
// structure, where the known structures end, and the count.
ghost use Rattle.std.specs.Prelude.{◌≡◌, ◌≤◌};
ghost use Rattle.board_rules.specs.Findings.{noted, Walked};
ghost use Rattle.board_rules.specs.Rules.{prom_sig_at};

use crate::structure::Structure;
use board_layout::{head_at, later_place, next_place, struct_len};
use chain::first_along;
use kinds::{Kinds, PROM_SIG};
use octets::le64_at;

// What a walk has found: the first place of each rule, the signature structure, from where on no structure is known, and how many structures there are.
#[derive(Clone, Copy, Default)]
pub struct Findings {
    pub misplaced: Option<usize>,
    pub gap: Option<usize>,
    pub order: Option<usize>,
    pub signature: Option<usize>,
    pub rest: usize,
    pub count: usize,
}

// What is found with a structure, after what was found before it.
fn note(found: Findings, kinds: Kinds, later: usize, structure: &Structure) -> Findings
    requires { found.count ≤ structure.now.at }
    ensures { result ≡ noted kinds structure.now.image.now later structure.now.at found }
{
    let count = found.count + 1;
    if structure.is_plain(kinds) {
        return Findings { count, ..found };
    }
    Findings {
        misplaced: found.misplaced.or(structure.misplaced()),
        gap: found.gap.or(structure.gap_used()),
        order: found.order.or(structure.order_from(later)),
        signature: found.signature.or(structure.prom_sig()),
        rest: structure.rest_after(kinds, found.rest),
        count,
    }
}

// What the whole walk finds; where rule 23 is broken, what was found up to there: no other rule counts then, and what follows may be anything.
pub(crate) fn walk_all(image: &[u8], kinds: Kinds) -> Findings
    ensures { Walked kinds image.now result }
{
    let all = struct_len(image);
    let later = later_place(image);
    let mut found = Findings::default();
    let mut at = 0;
    // Where the next structure starts is read in this one, so no range and no iterator gives the places.
    while at < all as usize {
        let structure = Structure {
            image,
            all,
            at: at as u32,
            head: head_at(image, at as u32),
        };
        found = note(found, kinds, later, &structure);
        if found.misplaced.is_some() {
            return found;
        }
        at = structure.after();
    }
    found
}

// Where the signature structure starts, if there is one, also in an image that does not keep rule 23.
pub fn prom_sig(image: &[u8]) -> Option<usize>
    ensures { result ≡ prom_sig_at image.now }
{
    first_along(
        |at| (le64_at(image, at) == PROM_SIG).then_some(at),
        |at| next_place(image, at as u32),
        0,
        struct_len(image) as usize,
    )
}
