// The parts of a request, a line with semicolons between them: decimal numbers, and bytes in hexadecimal.
ghost use Rattle.std.specs.Prelude.{◌≡◌, ℕ, Bool, ◌+◌, ◌≤◌, length, IfSome};
ghost use Rattle.console.specs.Counts.{IsPrefixLen};
ghost use Rattle.octets.specs.Bytes.{byte};
ghost use Rattle.console.specs.Request.{before, first_of, semicolons_in, part_of, digit_value, blanks, digits, decimal_in, number_at, number_in, pair_value, bytes_in, count_in, over};

use octets::{byte_at, byte_from};

// How many semicolons a line has.
#[tactic(auto, using(crate::proofs::laws::Request::semicolons_count))]
pub fn semicolons(line: &[u8]) -> usize
    ensures { result ≡ semicolons_in line.now }
{
    line.iter().filter(|c| **c == b';').count()
}

// Part n of a line, counted from 0: what is behind n semicolons, up to the next one; nothing where there are not so many.
fn part(line: &[u8], n: usize) -> &[u8]
    ensures { result.now ≡ part_of n line.now }
{
    line.split(|c| *c == b';').nth(n).unwrap_or(&[])
}

// What a digit stands for.
#[tactic(auto, unfolding(crate::specs::Request::value))]
fn value(c: u8) -> Option<u8>
    ensures { result ≡ digit_value c }
{
    match c {
        b'0'..=b'9' => Some(c - b'0'),
        b'A'..=b'F' => Some(c - b'A' + 10),
        b'a'..=b'f' => Some(c - b'a' + 10),
        _ => None,
    }
}

// How many bytes come before the first at which `stop` says so; all of them where it says so nowhere.
fn count_before<F: Fn(u8) -> bool>(text: &[u8], stop: F) -> usize
    requires { F.IsAlwaysCallable stop }
    ensures counted { (test : ℕ → Bool) → ((c : ℕ) (b : Bool) → F.post stop c b → b ≡ test c) → result ≡ before test text.now }
    ensures within { IsPrefixLen result text.now }
{
    text.iter().position(|c| stop(*c)).unwrap_or(text.len())
}

// The place of the first byte b; the end without one.
pub fn first_of(line: &[u8], b: u8) -> usize
    ensures { (result ≡ first_of b line.now) × IsPrefixLen result line.now }
{
    count_before(line, |c| c == b)
}

// How many blanks are at the front of a text.
fn blanks(text: &[u8]) -> usize
    ensures { (result ≡ blanks text.now) × IsPrefixLen result text.now }
{
    count_before(text, |c| c != b' ')
}

// How many decimal digits are at the front of a text.
#[tactic(auto, using(crate::proofs::laws::Request::digit_test))]
fn digits(text: &[u8]) -> usize
    ensures { (result ≡ digits text.now) × IsPrefixLen result text.now }
{
    count_before(text, |c| !c.is_ascii_digit())
}

// The number that decimal digits spell, at most `most`. (The text has nothing else; what is no digit would count as 16.)
#[tactic(auto, using(crate::proofs::laws::Request::digit_or, crate::proofs::laws::Request::decimal_turn, crate::proofs::laws::Request::decimal_good))]
fn decimal(text: &[u8], most: u32) -> Option<usize>
    ensures { (result ≡ decimal_in most text.now) × IfSome result (λ n. n ≤ most) }
{
    let bound = most as usize;
    let mut n = 0;
    for c in text {
        n = n * 10 + value(*c).unwrap_or(16) as usize;
        if bound < n {
            return None;
        }
    }
    Some(n)
}

// A decimal number, at most `most`, at the front of a text, and only blanks behind it.
#[tactic(auto, using(crate::proofs::laws::Parts::number_none, crate::proofs::laws::Parts::number_more, crate::proofs::laws::Parts::number_whole))]
fn number_at(text: &[u8], most: u32) -> Option<usize>
    ensures { (result ≡ number_at most text.now) × IfSome result (λ n. n ≤ most) }
{
    let n = digits(text);
    if n == 0 {
        return None;
    }
    if blanks(&text[n..]) != text.len() - n {
        return None;
    }
    decimal(&text[..n], most)
}

// A decimal number, at most `most`, with blanks around it.
#[tactic(auto, using(crate::proofs::laws::Parts::number_slice))]
fn number(part: &[u8], most: u32) -> Option<usize>
    ensures { (result ≡ number_in most part.now) × IfSome result (λ n. n ≤ most) }
{
    number_at(&part[blanks(part)..], most)
}

// The byte of the two digits at a place.
#[tactic(auto, using(crate::proofs::laws::Request::two_high, crate::proofs::laws::Request::two_low, crate::proofs::laws::Request::two_both))]
fn two_digits(part: &[u8], at: usize) -> Option<u8>
    ensures { result ≡ pair_value (byte part.now at) (byte part.now (at + 1)) }
{
    let high = value(byte_at(part, at))?;
    let low = value(byte_from(part, at, 1))?;
    Some(high * 16 + low)
}

// Bytes of two digits each, with blanks between them and around, put at the front of `out`. (A turn goes on by one character or by two, so this is no loop
// over a range.)
fn bytes(part: &[u8], out: &mut [u8]) -> Option<usize>
    ensures { (result ≡ count_in (length out.old) part.now) × (out.new ≡ over (bytes_in part.now) out.old) × IfSome result (λ n. IsPrefixLen n out.new) }
{
    let mut at = 0;
    let mut n = 0;
    // No `for` over a range: a blank takes one place, and a byte two.
    while at < part.len() {
        if part[at] == b' ' {
            at += 1;
        } else {
            let b = two_digits(part, at)?;
            if out.len() <= n {
                return None;
            }
            out[n] = b;
            n += 1;
            at += 2;
        }
    }
    Some(n)
}

// The number that part n of a line is, at most `most`.
pub fn number_of(line: &[u8], n: usize, most: u32) -> Option<usize>
    ensures { (result ≡ number_in most (part_of n line.now)) × IfSome result (λ n. n ≤ most) }
{
    number(part(line, n), most)
}

// How many bytes part n of a line gives, which are put at the front of `out`; a line without a part n gives none.
pub fn bytes_of(line: &[u8], n: usize, out: &mut [u8]) -> Option<usize>
    ensures { (result ≡ count_in (length out.old) (part_of n line.now)) × (out.new ≡ over (bytes_in (part_of n line.now)) out.old) × IfSome result (λ n. IsPrefixLen n out.new) }
{
    bytes(part(line, n), out)
}
