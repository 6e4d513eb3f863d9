// The functions of crc, for C. A slice is a pointer and a length: uint32_t chip_crc32(const uint8_t *s, size_t n).

#![tactic(auto)]

ghost use Rattle.std.specs.Prelude.{◌≡◌};
ghost use Rattle.crc.specs.Blank.{blank};
ghost use Rattle.crc.specs.Crc32;
ghost use Rattle.crc.specs.Crc8;

use crc::{crc8, crc32};

// The CRC-8 of s.
#[unsafe(no_mangle)]
pub extern "C" fn chip_crc8(s: &[u8]) -> u8
    ensures { result ≡ Crc8.crc8 s.now }
{
    crc8::crc8(s)
}

// The CRC-8 after the bytes of s, from the CRC-8 of those before them.
#[unsafe(no_mangle)]
pub extern "C" fn chip_crc8_run(c: u8, s: &[u8]) -> u8
    ensures { result ≡ Crc8.run8 c s.now }
{
    crc8::crc8_run(c, s)
}

// The CRC-32 of s.
#[unsafe(no_mangle)]
pub extern "C" fn chip_crc32(s: &[u8]) -> u32
    ensures { result ≡ Crc32.crc32 s.now }
{
    crc32::crc32(s)
}

// The register of CRC-32 after the bytes of s, from c.
#[unsafe(no_mangle)]
pub extern "C" fn chip_crc32_run(c: u32, s: &[u8]) -> u32
    ensures { result ≡ Crc32.run32 c s.now }
{
    crc32::crc32_run(c, s)
}

// The CRC-32 of s with the four bytes from 14h on counted as zero.
#[unsafe(no_mangle)]
pub extern "C" fn chip_crc32_field_as_zero(s: &[u8]) -> u32
    ensures { result ≡ Crc32.crc32 (blank 0x14 4 s.now) }
{
    crc32::crc32_field_as_zero(s)
}
