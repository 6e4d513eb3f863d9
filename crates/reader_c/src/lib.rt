// The reader, for C. A slice is a pointer and a length:
// uint64_t reader_list(uint32_t format, const uint8_t *image, size_t n, uint32_t kinds, Entry *out, size_t room);
// uint64_t reader_step(uint32_t format, const uint8_t *image, size_t n, uint32_t kinds, size_t number).

#![tactic(auto)]

ghost use Rattle.std.specs.Prelude.{◌≡◌};
ghost use Rattle.host.specs.Numbers.{number, numbered};
ghost use Rattle.kinds.specs.Kinds.{from_bits};
ghost use Rattle.reader.specs.Answers.{list_of};
ghost use Rattle.reader.specs.Values.{list_said};
ghost use Rattle.reader.specs.Walk.{step_numbered};
ghost use Rattle.reader_c.specs.Numbers.{format_of, item_place, step_number};

use host::{answer_number, refusal_number, value_number};
use kinds::Kinds;
use reader::{Entry, Format, Item, StepAnswer, list, step_numbered};

// The format of a number: 0 for tiny images, any other for board images.
fn format_of(number: u32) -> Format
    ensures { result ≡ format_of number }
{
    match number {
        0 => Format::Tiny,
        _ => Format::Board,
    }
}

// The place of an item.
fn item_place(item: Item) -> u64
    ensures { result ≡ item_place item }
{
    match item {
        Item::Tiny(shown) => value_number(shown.place),
        Item::Board(shown) => value_number(shown.place),
    }
}

// What a step shows as one number: the item's place; bit 40 where none is left, bit 41 where no step was made; or the refusal.
fn step_number(answer: StepAnswer) -> u64
    ensures { result ≡ step_number answer }
{
    match answer {
        StepAnswer::Nothing => 0x200_0000_0000,
        StepAnswer::Shown(item) => item_place(item),
        StepAnswer::NoneLeft => 0x100_0000_0000,
        StepAnswer::Refused(refusal) => refusal_number(refusal),
    }
}

// The list by a reader with the list of these bits, into the lent entries: what is answered, as one number.
#[unsafe(no_mangle)]
pub extern "C" fn reader_list(format: u32, image: &[u8], kinds: u32, out: &mut [Entry]) -> u64
    ensures { (result, out.new) ≡ numbered list_said (list_of (format_of format) (from_bits kinds) image.now out.old) }
{
    answer_number(list(format_of(format), image, Kinds::from_bits(kinds), out))
}

// What the step of a number from a fresh walk shows, as one number.
#[unsafe(no_mangle)]
pub extern "C" fn reader_step(format: u32, image: &[u8], kinds: u32, number: usize) -> u64
    ensures { result ≡ step_number (step_numbered (format_of format) (from_bits kinds) image.now number) }
{
    step_number(step_numbered(format_of(format), image, Kinds::from_bits(kinds), number))
}
