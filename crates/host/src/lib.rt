// The host's functions: the judges, the choice, the name and the version, for C. A slice is a pointer and a length, a reader's list is the number of its
// bits, and every answer but the version is one 64-bit number. The crate host_c exports them, and chip/chip.h declares them and takes an answer apart.

#![tactic(auto)]

ghost use Rattle.std.specs.Prelude.{◌≡◌};
ghost use Rattle.board_rules.specs.Judged as board;
ghost use Rattle.choice.specs.Choice.{choice_of, choice_said};
ghost use Rattle.host.specs.Numbers.{number, chosen_number, numbered};
ghost use Rattle.host.specs.Version.{version};
ghost use Rattle.kinds.specs.Kinds.{from_bits};
ghost use Rattle.tiny.specs.Answers.{name_of};
ghost use Rattle.tiny.specs.Values.{name_said};
ghost use Rattle.tiny_rules.specs.Judged as tiny;
ghost use Rattle.verdict.specs.Said.{says, refused, said_by, judged_said};

use choice::{Part, choice};
use kinds::Kinds;
use tiny::name;
use verdict::Refusal;

// A count or a length, in bits 0 to 31.
pub fn value_number(value: usize) -> u64
    ensures { result ≡ number (says value) }
{
    value as u64 % 0x1_0000_0000
}

// A refusal: its number in bits 32 to 39, its place in bits 0 to 31.
pub fn refusal_number(refusal: Refusal) -> u64
    ensures { result ≡ number (refused refusal.number refusal.place) }
{
    let number = refusal.number as u64 * 0x1_0000_0000;
    let place = refusal.place as u64 % 0x1_0000_0000;
    let both = number + place;
    both
}

// What is answered with a count or a length, as by a judge, for the name and for a list; or the refusal.
pub fn answer_number(answer: Result<usize, Refusal>) -> u64
    ensures { result ≡ number (said_by (λ n. n) answer) }
{
    match answer {
        Ok(value) => value_number(value),
        Err(refusal) => refusal_number(refusal),
    }
}

// What is answered for the choice: the length, with bit 40 set for the EEPROM image; or the firmware image's refusal.
fn choice_number(answer: Result<Part, Refusal>) -> u64
    ensures { result ≡ chosen_number (choice_said answer) }
{
    match answer {
        Ok(Part::Firmware(length)) => value_number(length),
        Ok(Part::Eeprom(length)) => 0x100_0000_0000 + value_number(length),
        Err(refusal) => refusal_number(refusal),
    }
}

// The judge of tiny images: the count of items, or the refusal.
pub fn chip_tiny_judge(image: &[u8], kinds: u32) -> u64
    ensures { result ≡ number (judged_said (tiny.judged (from_bits kinds) image.now)) }
{
    answer_number(tiny_rules::judge(image, Kinds::from_bits(kinds)))
}

// The judge of board images: the count of items, or the refusal.
pub fn chip_board_judge(image: &[u8], kinds: u32) -> u64
    ensures { result ≡ number (judged_said (board.judged (from_bits kinds) image.now)) }
{
    answer_number(board_rules::judge(image, Kinds::from_bits(kinds)))
}

// Which of a firmware image and an EEPROM image is chosen, and how many of its bytes: its StructLen; or the firmware image's refusal, if neither is accepted.
pub fn chip_board_choice(firmware: &[u8], eeprom: &[u8], kinds: u32) -> u64
    ensures { result ≡ chosen_number (choice_said (choice_of (from_bits kinds) firmware.now eeprom.now)) }
{
    choice_number(choice(firmware, eeprom, Kinds::from_bits(kinds)))
}

// The file name of a tiny image, to the front of a lent buffer: its length, or the refusal; a refused call changes no byte.
pub fn chip_tiny_name(image: &[u8], kinds: u32, buffer: &mut [u8]) -> u64
    ensures { (result, buffer.new) ≡ numbered name_said (name_of (from_bits kinds) image.now buffer.old) }
{
    answer_number(name(image, Kinds::from_bits(kinds), buffer))
}

// The version of these functions, for a caller to hold against that of its header.
pub fn chip_version() -> u32
    ensures { result ≡ version }
{
    10200
}
