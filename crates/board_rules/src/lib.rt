// The rules of board images, 20 to 34, and the judge that applies them in their order.

#![tactic(auto)]

ghost use Rattle.std.specs.Prelude.{◌≡◌, length, drop, Ok};
ghost use Rattle.board_layout.specs.Layout.{structures};
ghost use Rattle.board_rules.specs.Findings.{later_order};
ghost use Rattle.board_rules.specs.Judged.{rules, judged};
ghost use Rattle.board_rules.specs.Rules.{is_header_length, rule20, rule21, rule22, rule25, expected, prom_sig_at, covered, check_over};
ghost use Rattle.verdict.specs.Verdict.{answer};

use board_layout::{board_place, length_at, major_at, map_place, struct_len};
use kinds::{BRD_INFO, EEPR_MAP, EEPROM, Kinds};
use octets::le64_at;
use verdict::{Refusal, keeps};

mod known;
mod ordered;
mod structure;
mod walk;

use ordered::Ordered;
pub use walk::prom_sig;
use walk::walk_all;

// Whether a Length is that of a header.
pub fn is_header_length(length: u32) -> bool
    ensures { result ≡ is_header_length length }
{
    length == 0x20 || length == 0x30
}

// Rule 20: how many bytes are lent.
#[tactic(auto, unfolding(crate::specs::Rules::rule20))]
fn bad_size(image: &[u8]) -> Option<usize>
    ensures { result ≡ rule20 image.now }
{
    (image.len() < 0x20 || 65536 < image.len()).then_some(0)
}

// Rule 21: the header's signature, VerMajor and Length.
#[tactic(auto, unfolding(crate::specs::Rules::rule21))]
fn bad_header(image: &[u8]) -> Option<usize>
    ensures { result ≡ rule21 image.now }
{
    let signature = le64_at(image, 0);
    let major = major_at(image, 0);
    let fits = is_header_length(length_at(image, 0));
    (signature != EEPROM || major != 1 || !fits).then_some(0)
}

// Rule 22: StructLen.
#[tactic(auto, unfolding(crate::specs::Rules::rule22))]
fn bad_struct_len(image: &[u8]) -> Option<usize>
    ensures { result ≡ rule22 image.now }
{
    let end = struct_len(image);
    let header = length_at(image, 0);
    (end < header || image.len() < end as usize).then_some(0x10)
}

// Rule 25: the structure that is expected at a place.
#[tactic(auto, unfolding(crate::specs::Rules::expected))]
fn unexpected(image: &[u8], signature: u64, at: usize) -> Option<usize>
    ensures { result ≡ expected image.now signature at }
{
    let end = struct_len(image) as usize;
    if end <= at {
        return Some(end);
    }
    (le64_at(image, at) != signature).then_some(at)
}

// Rule 25: the second structure, the third, and what was found of those after it.
fn bad_order(image: &[u8], order: Option<usize>) -> Option<usize>
    requires { order ≡ later_order image.now }
    ensures { result ≡ rule25 image.now }
{
    unexpected(image, EEPR_MAP, map_place(image))
        .or(unexpected(image, BRD_INFO, board_place(image)))
        .or(order)
}

// The expected CrcLength, by where the signature structure starts.
#[tactic(auto, unfolding(crate::specs::Rules::covered))]
fn covered_by(image: &[u8], signature: Option<usize>) -> usize
    requires { signature ≡ prom_sig_at image.now }
    ensures { result ≡ covered image.now }
{
    match signature {
        Some(p) => p + 0x20,
        None => struct_len(image) as usize,
    }
}

// The expected CrcLength.
pub fn covered_length(image: &[u8]) -> usize
    ensures { result ≡ covered image.now }
{
    covered_by(image, prom_sig(image))
}

// The expected Crc32 over the first n bytes.
pub fn check_over(image: &[u8], n: usize) -> u32
    ensures { result ≡ check_over image.now n }
{
    if image.len() <= n {
        return crc::crc32::crc32_field_as_zero(image);
    }
    crc::crc32::crc32_field_as_zero(&image[0..n])
}

// The rules from 23 on.
fn judge_walk(image: &[u8], kinds: Kinds) -> Result<usize, Refusal>
    ensures { result ≡ answer (drop 3 (rules kinds image.now)) (Ok (length (structures image.now))) }
{
    let found = walk_all(image, kinds);
    keeps(23, found.misplaced)?;
    keeps(24, found.gap)?;
    keeps(25, bad_order(image, found.order))?;
    let ordered = Ordered {
        image,
        kinds,
        found,
    };
    ordered.judge()
}

// Whether an image is accepted by a reader with this list, and how many items it has; or the refusal.
#[tactic(auto, unfolding(crate::specs::Judged::judged))]
pub fn judge(image: &[u8], kinds: Kinds) -> Result<usize, Refusal>
    ensures { result ≡ judged kinds image.now }
{
    keeps(20, bad_size(image))?;
    keeps(21, bad_header(image))?;
    keeps(22, bad_struct_len(image))?;
    judge_walk(image, kinds)
}
