// What codes mean, in the words of the layout paper. An accepted image has no other value than those named here. The codes stay numbers: an enum would name
// each code twice, where it is read and where it is shown.
use std::fmt;

// What a code means, behind the code; nothing of one that is not named.
#[derive(Clone, Copy)]
pub struct Meaning(pub Option<&'static str>);

impl fmt::Display for Meaning {
    fn fmt<W: fmt::Write>(&self, f: &mut fmt::Formatter<W>) -> fmt::Result {
        match self.0 {
            Some(words) => write!(f, " = {words}"),
            None => Ok(()),
        }
    }
}

// Speed, of `$EeprMap`.
pub fn speed(code: u8) -> Meaning {
    Meaning(match code {
        0 => Some("Unknown"),
        1 => Some("100KHz (Standard speed)"),
        2 => Some("400KHz (Fast speed)"),
        3 => Some("3.4MHz (High speed)"),
        _ => None,
    })
}

// BoardType, of `$BrdInfo`.
pub fn board_type(code: u8) -> Meaning {
    Meaning(match code {
        0 => Some("Main board"),
        1 => Some("Plug-in board"),
        _ => None,
    })
}

// HashType, of `$PromSig`. Only the hashes of 1 to 3 can be signed.
pub fn hash_type(code: u16) -> Meaning {
    Meaning(match code {
        0 => Some("None"),
        1 => Some("MD5"),
        2 => Some("SHA-1"),
        3 => Some("SHA-256"),
        4 => Some("SHA-384"),
        5 => Some("SHA-512"),
        0x8001 => Some("MD5, signed"),
        0x8002 => Some("SHA-1, signed"),
        0x8003 => Some("SHA-256, signed"),
        _ => None,
    })
}

// DataType, of `$FPGAnfo`.
pub fn fpga_data_type(code: u8) -> Meaning {
    Meaning(match code {
        0 => Some("Unknown"),
        1 => Some("UART"),
        2 => Some("I2C"),
        3 => Some("SPI"),
        4 => Some("PCI"),
        _ => None,
    })
}

// DataType, of a record of `$GpioDat`.
pub fn gpio_data_type(code: u8) -> Meaning {
    Meaning(match code {
        0 => Some("IO"),
        1 => Some("MMIO"),
        2 => Some("PCI"),
        3 => Some("PCIe"),
        4 => Some("PAD Offset"),
        _ => None,
    })
}
