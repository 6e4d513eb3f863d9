// The functions of host, for C: the library libchip.a. A slice is a pointer and a length.

#![tactic(auto)]

ghost use Rattle.std.specs.Prelude.{◌≡◌};
ghost use Rattle.board_rules.specs.Judged as board;
ghost use Rattle.choice.specs.Choice.{choice_of, choice_said};
ghost use Rattle.host.specs.Numbers.{number, chosen_number, numbered};
ghost use Rattle.host.specs.Version.{version};
ghost use Rattle.kinds.specs.Kinds.{from_bits};
ghost use Rattle.tiny.specs.Answers.{name_of};
ghost use Rattle.tiny.specs.Values.{name_said};
ghost use Rattle.tiny_rules.specs.Judged as tiny;
ghost use Rattle.verdict.specs.Said.{judged_said};

// The judge of tiny images: the count of items, or the refusal.
#[unsafe(no_mangle)]
pub extern "C" fn chip_tiny_judge(image: &[u8], kinds: u32) -> u64
    ensures { result ≡ number (judged_said (tiny.judged (from_bits kinds) image.now)) }
{
    host::chip_tiny_judge(image, kinds)
}

// The judge of board images: the count of items, or the refusal.
#[unsafe(no_mangle)]
pub extern "C" fn chip_board_judge(image: &[u8], kinds: u32) -> u64
    ensures { result ≡ number (judged_said (board.judged (from_bits kinds) image.now)) }
{
    host::chip_board_judge(image, kinds)
}

// Which of a firmware image and an EEPROM image is chosen, and how many of its bytes: its StructLen; or the firmware image's refusal, if neither is accepted.
#[unsafe(no_mangle)]
pub extern "C" fn chip_board_choice(firmware: &[u8], eeprom: &[u8], kinds: u32) -> u64
    ensures { result ≡ chosen_number (choice_said (choice_of (from_bits kinds) firmware.now eeprom.now)) }
{
    host::chip_board_choice(firmware, eeprom, kinds)
}

// The file name of a tiny image, to the front of a lent buffer: its length, or the refusal; a refused call changes no byte.
#[unsafe(no_mangle)]
pub extern "C" fn chip_tiny_name(image: &[u8], kinds: u32, buffer: &mut [u8]) -> u64
    ensures { (result, buffer.new) ≡ numbered name_said (name_of (from_bits kinds) image.now buffer.old) }
{
    host::chip_tiny_name(image, kinds, buffer)
}

// The version of these functions, for a caller to hold against that of its header.
#[unsafe(no_mangle)]
pub extern "C" fn chip_version() -> u32
    ensures { result ≡ version }
{
    host::chip_version()
}
