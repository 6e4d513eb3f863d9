// Chains of items in an image, and the first place where a rule is broken: definitions in specs/, laws in proofs/. The functions go along a chain by a closure
// that tells where the item after one starts.
// Where a loop is a `while`, the closure tells the next place, and a `for` over a range would not.
#![tactic(auto)]

ghost use Rattle.std.specs.Prelude.{◌≡◌, ℕ, ◌<◌, length};
ghost use Rattle.chain.specs.Along.{Follows, Grows, Asks};
ghost use Rattle.chain.specs.Chain.{chain, range};
ghost use Rattle.chain.specs.First.{first, search};
ghost use Rattle.chain.specs.Found.{Found};
ghost use Rattle.chain.specs.Nth.{nth};

// The place of the item of a number, of those from a place up to `end`.
pub fn place_of<N: Fn(usize) -> usize>(
    next: N,
    from: usize,
    end: usize,
    number: usize,
) -> Option<usize>
    requires callable { (p : ℕ) → p < end → N.pre next p }
    requires grows { (p q : ℕ) → p < end → N.post next p q → p < q }
    ensures { (step : ℕ → ℕ) → Grows step → Follows (N.post next) end step → result ≡ nth (chain step end from) number }
{
    let mut at = from;
    let mut left = number;
    while at < end {
        if left == 0 {
            return Some(at);
        }
        left -= 1;
        at = next(at);
    }
    None
}

// How many items there are from a place up to `end`.
pub fn count_along<N: Fn(usize) -> usize>(next: N, from: usize, end: usize) -> usize
    requires callable { (p : ℕ) → p < end → N.pre next p }
    requires grows { (p q : ℕ) → p < end → N.post next p q → p < q }
    ensures { (step : ℕ → ℕ) → Grows step → Follows (N.post next) end step → result ≡ length (chain step end from) }
{
    let mut at = from;
    let mut count = 0;
    while at < end {
        count += 1;
        at = next(at);
    }
    count
}

// What a rule says first of the places from `from` up to `to`.
pub fn first_in<R: Fn(usize) -> Option<usize>>(rule: R, from: usize, to: usize) -> Option<usize>
    requires askable { (p : ℕ) → p < to → R.pre rule p }
    ensures { (said : ℕ → Found) → Asks (R.post rule) to said → result ≡ first said (range from to) }
{
    for at in from..to {
        let broken = rule(at);
        if broken.is_some() {
            return broken;
        }
    }
    None
}

// What a rule says first of the items from a place up to `end`.
pub fn first_along<R: Fn(usize) -> Option<usize>, N: Fn(usize) -> usize>(
    rule: R,
    next: N,
    from: usize,
    end: usize,
) -> Option<usize>
    requires askable { (p : ℕ) → p < end → R.pre rule p }
    requires callable { (p : ℕ) → p < end → N.pre next p }
    requires grows { (p q : ℕ) → p < end → N.post next p q → p < q }
    ensures { (said : ℕ → Found) (step : ℕ → ℕ) → Asks (R.post rule) end said → Grows step → Follows (N.post next) end step → result ≡ search said step end from }
{
    let mut at = from;
    while at < end {
        let found = rule(at);
        if found.is_some() {
            return found;
        }
        at = next(at);
    }
    None
}
