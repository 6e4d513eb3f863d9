// What a judge and a writer answer, in every format: a number, or the refusal.

#![tactic(auto)]

ghost use Rattle.std.specs.Prelude.{◌≡◌};
ghost use Rattle.verdict.specs.Verdict.{kept, refusal};

// A broken rule's number, and the place where it is broken. (The papers give rules numbers and no names, and the C interface, the programs and the
// promises tell these numbers: so there is no enum of the rules.)
#[derive(Clone, Copy, PartialEq, Eq)]
pub struct Refusal {
    pub number: u8,
    pub place: usize,
}

// The refusal by a rule's number at a place, for any answer.
pub fn refused<T>(number: u8, place: usize) -> Result<T, Refusal>
    ensures { result ≡ refusal number place }
{
    Err(Refusal { number, place })
}

// Goes on where nothing was found that breaks a rule; else the refusal by the rule's number at the place found.
pub fn keeps(number: u8, broken: Option<usize>) -> Result<(), Refusal>
    ensures { result ≡ kept number broken }
{
    match broken {
        Some(place) => refused(number, place),
        None => Ok(()),
    }
}
