// The rules of tiny images, 1 to 11, and the judge that applies them in their order.

#![tactic(auto)]

ghost use Rattle.std.specs.Prelude.{cond, ◌≡◌, ◌≤◌, length, drop, None, Ok};
ghost use Rattle.chain.specs.Chain.{range};
ghost use Rattle.chain.specs.First.{first};
ghost use Rattle.kinds.specs.Kinds.{listed};
ghost use Rattle.kinds.specs.declared.Kind.{Kind};
ghost use Rattle.tiny_layout.specs.Layout.{check_place, items};
ghost use Rattle.tiny_layout.specs.Pool.{pool_place, pool};
ghost use Rattle.tiny_layout.specs.Strings.{texts};
ghost use Rattle.tiny_rules.specs.Findings.{AboveAll, Walked};
ghost use Rattle.tiny_rules.specs.Judged.{rules, judged};
ghost use Rattle.tiny_rules.specs.Rules.{rule5, unfit, on_known, bad_index};
ghost use Rattle.verdict.specs.Verdict.{answer};

use bytes::unfit_at;
use chain::first_in;
use items::{first_index, first_known};
use kinds::Kinds;
use octets::byte_at;
use tiny_layout::{Pool, check_place};
use verdict::{Refusal, keeps};
use walk::{Findings, walk_all};

mod bytes;
mod fields;
pub mod items;
mod walk;

// Rule 5: the check byte's place, where it is not the CRC-8 of the bytes before it.
fn bad_check(image: &[u8]) -> Option<usize>
    requires { check_place image.now ≤ length image.now }
    ensures { result ≡ rule5 image.now }
{
    let end = check_place(image) as usize;
    (byte_at(image, end) != crc::crc8::crc8(&image[..end])).then_some(end)
}

// The data of the listed pool, by its place; none without one.
fn pool_by(image: &[u8], kinds: Kinds, place: Option<usize>) -> Pool
    requires { place ≡ pool_place kinds image.now }
    ensures { result ≡ pool kinds image.now }
{
    match place {
        Some(at) => tiny_layout::pool_at(image, at as u8),
        None => Pool { from: 0, to: 0 },
    }
}

// The data of the listed pool; none without one.
pub fn pool_of(image: &[u8], kinds: Kinds) -> Pool
    ensures { result ≡ pool kinds image.now }
{
    pool_by(image, kinds, first_known(image, kinds, 0x01, 3))
}

// Rule 9: the place of the first byte of the pool that breaks it.
fn bad_pool(image: &[u8], pool: Pool) -> Option<usize>
    ensures { result ≡ first (unfit image.now pool.to) (range pool.from pool.to) }
{
    let to = pool.to as usize;
    first_in(|at| unfit_at(image, to, at), pool.from as usize, to)
}

// Rule 10: the place of the first index that is not below the string count. There is none where the walk found no index as high as that.
fn bad_reference(image: &[u8], kinds: Kinds, pool: Pool, above: usize) -> Option<usize>
    requires { AboveAll kinds image.now above }
    ensures { result ≡ cond (listed kinds (Kind.Tag 0x01)) (first (on_known kinds image.now (bad_index image.now (length (texts image.now pool)))) (items image.now)) None }
{
    if !kinds.has_tag(0x01) {
        return None;
    }
    let count = tiny_layout::string_count(image, pool);
    if above <= count {
        return None;
    }
    first_index(image, kinds, count)
}

// The rules from 9 on.
fn judge_data(image: &[u8], kinds: Kinds, found: Findings) -> Result<usize, Refusal>
    requires { Walked kinds image.now found }
    ensures { result ≡ answer (drop 8 (rules kinds image.now)) (Ok (length (items image.now))) }
{
    let pool = pool_by(image, kinds, found.pool);
    keeps(9, bad_pool(image, pool))?;
    keeps(10, bad_reference(image, kinds, pool, found.above))?;
    keeps(11, found.field)?;
    Ok(found.count)
}

// The rules from 5 on.
fn judge_items(image: &[u8], kinds: Kinds) -> Result<usize, Refusal>
    requires { check_place image.now ≤ length image.now }
    ensures { result ≡ answer (drop 4 (rules kinds image.now)) (Ok (length (items image.now))) }
{
    keeps(5, bad_check(image))?;
    let found = walk_all(image, kinds);
    keeps(6, found.passing)?;
    keeps(7, found.reserved)?;
    keeps(8, found.early)?;
    judge_data(image, kinds, found)
}

// Whether an image is accepted by a reader with this list, and how many items it has; or the refusal.
pub fn judge(image: &[u8], kinds: Kinds) -> Result<usize, Refusal>
    ensures { result ≡ judged kinds image.now }
{
    let length = byte_at(image, 2) as usize;
    keeps(1, (image.len() < 4).then_some(0))?;
    keeps(2, (byte_at(image, 0) != 0x56).then_some(0))?;
    keeps(3, (byte_at(image, 1) != 0x02).then_some(1))?;
    keeps(4, (length < 4 || image.len() < length).then_some(2))?;
    judge_items(image, kinds)
}
