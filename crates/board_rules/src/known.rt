// The second walk along the structures, for rules 32 and 33: the known ones are looked into, and what each rule finds first is carried along.
ghost use Rattle.std.specs.Prelude.{◌≡◌, None};
ghost use Rattle.board_rules.specs.Findings.{along, is_known, looked_into, Looked};

use board_fields::{bad_inside, reserved_used};
use board_layout::{is_known, next_place, shape_at, struct_len};
use kinds::Kinds;

// What was found in the known structures: the first place of each rule.
#[derive(Clone, Copy, Default)]
pub struct Contents {
    pub reserved: Option<usize>,
    pub inside: Option<usize>,
}

// What is found with the structure at a place, after what was found before it.
fn look_into(found: Contents, image: &[u8], kinds: Kinds, at: u32) -> Contents
    ensures { result ≡ looked_into kinds image.now at found }
{
    let shape = shape_at(image, at);
    if !is_known(kinds, shape) {
        return found;
    }
    Contents {
        reserved: found.reserved.or(reserved_used(image, at, shape)),
        inside: found.inside.or(bad_inside(image, at, shape)),
    }
}

// What the walk finds up to `rest`, from where on no structure is known; where rule 32 is broken, what was found up to there: rule 33 does not count then.
pub(crate) fn walk_known(image: &[u8], kinds: Kinds, rest: usize) -> Contents
    requires { along image.now (is_known kinds image.now) rest ≡ None }
    ensures { Looked kinds image.now result }
{
    let end = struct_len(image) as usize;
    let mut found = Contents::default();
    let mut at = 0;
    // Where the next structure starts is read in this one, so no range and no iterator gives the places.
    while at < end {
        if at == rest {
            return found;
        }
        found = look_into(found, image, kinds, at as u32);
        if found.reserved.is_some() {
            return found;
        }
        at = next_place(image, at as u32);
    }
    found
}
