// The choice between a firmware image and an EEPROM image of one board.

#![tactic(auto)]

ghost use Rattle.std.specs.Prelude.{◌≡◌, Ok};
ghost use Rattle.choice.specs.Choice.{same_board, eeprom_wins, of_both, choice_of, chosen_of};
ghost use Rattle.choice.specs.Boards.{board_of};

use board_layout::{board_place, struct_len};
use board_rules::judge;
use kinds::Kinds;
use octets::{byte_at, bytes_at, le32_at};
use verdict::Refusal;

// The image that is chosen, with its length.
#[derive(Clone, Copy)]
pub enum Part {
    Firmware(usize),
    Eeprom(usize),
}

// What two images have in common where they are of the same board: the names and the ids of the board structure, and its type.
#[derive(Clone, Copy, PartialEq, Eq)]
pub struct Board {
    pub manu_name: [u8; 16],
    pub brd_name: [u8; 16],
    pub board_id: u32,
    pub fab_id: u32,
    pub ec_id: u32,
    pub board_type: u8,
}

// The board of an image.
fn board_of(image: &[u8]) -> Board
    ensures { result ≡ board_of image.now }
{
    let at = board_place(image);
    Board {
        manu_name: bytes_at(image, at + 0x10),
        brd_name: bytes_at(image, at + 0x20),
        board_id: le32_at(image, at + 0x40),
        fab_id: le32_at(image, at + 0x44),
        ec_id: le32_at(image, at + 0x48),
        board_type: byte_at(image, at + 0x4C),
    }
}

// Whether two images are of the same board.
fn same_board(firmware: &[u8], eeprom: &[u8]) -> bool
    ensures { result ≡ same_board firmware.now eeprom.now }
{
    board_of(firmware) == board_of(eeprom)
}

// Whether the EEPROM image is chosen of two that are accepted.
fn eeprom_wins(firmware: &[u8], eeprom: &[u8]) -> bool
    ensures { result ≡ eeprom_wins firmware.now eeprom.now }
{
    same_board(firmware, eeprom) && le32_at(firmware, 0x1C) < le32_at(eeprom, 0x1C)
}

// The choice of two that are accepted.
fn of_both(firmware: &[u8], eeprom: &[u8]) -> Part
    ensures { Ok result ≡ of_both firmware.now eeprom.now }
{
    if eeprom_wins(firmware, eeprom) {
        return Part::Eeprom(struct_len(eeprom) as usize);
    }
    Part::Firmware(struct_len(firmware) as usize)
}

// Which of the two images is chosen, both judged with this list, and how many bytes it has; or the refusal of the firmware image, if neither is accepted.
pub fn choice(firmware: &[u8], eeprom: &[u8], kinds: Kinds) -> Result<Part, Refusal>
    ensures { result ≡ choice_of kinds firmware.now eeprom.now }
{
    match (judge(firmware, kinds), judge(eeprom, kinds)) {
        (Ok(_), Ok(_)) => Ok(of_both(firmware, eeprom)),
        (Ok(_), Err(_)) => Ok(Part::Firmware(struct_len(firmware) as usize)),
        (Err(_), Ok(_)) => Ok(Part::Eeprom(struct_len(eeprom) as usize)),
        (Err(refusal), Err(_)) => Err(refusal),
    }
}

// The chosen image: the first StructLen bytes of one of the lent slices; an empty part of the firmware image, if neither is accepted.
pub fn chosen<'a>(firmware: &'a [u8], eeprom: &'a [u8], kinds: Kinds) -> &'a [u8]
    ensures { result.now ≡ chosen_of kinds firmware.now eeprom.now }
{
    match choice(firmware, eeprom, kinds) {
        Ok(Part::Firmware(n)) => &firmware[..n],
        Ok(Part::Eeprom(n)) => &eeprom[..n],
        Err(_) => &firmware[..0],
    }
}
