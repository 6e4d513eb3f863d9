// CRC-32 of IEEE 802.3: reflected, polynomial EDB88320h, all ones at the start and inverted at the end.
// A short message goes a word at a time, a long one in lanes.
ghost use Rattle.std.specs.Prelude.{◌≡◌};
ghost use Rattle.crc.specs.Blank.{blank};
ghost use Rattle.crc.specs.Crc32.{run32};

use super::word_tables::WordTables;

impl WordTables {
    // The register after the bytes of s, from c. Below 384 bytes the lanes save less time than the writing out of their tables takes.
    fn run(&self, c: u32, s: &[u8]) -> u32
        ensures { result ≡ run32 c s.now }
    {
        if s.len() < 384 {
            self.run_words(c, s)
        } else {
            self.run_lanes(c, s)
        }
    }
}

// The register after the bytes of s, from c: for a message that comes in parts.
pub fn crc32_run(c: u32, s: &[u8]) -> u32
    ensures { result ≡ run32 c s.now }
{
    WordTables::new().run(c, s)
}

// The CRC-32 of s.
pub fn crc32(s: &[u8]) -> u32
    ensures { result ≡ Rattle.crc.specs.Crc32.crc32 s.now }
{
    crc32_run(0xFFFFFFFF, s) ^ 0xFFFFFFFF
}

// The CRC-32 of s with the four bytes from 14h on, where an image has its CRC-32, counted as zero.
pub fn crc32_field_as_zero(s: &[u8]) -> u32
    ensures { result ≡ Rattle.crc.specs.Crc32.crc32 (blank 0x14 4 s.now) }
{
    let t = WordTables::new();
    let zeros: &[u8] = &[0u8; 4];
    let at = usize::min(0x14, s.len());
    let end = usize::min(0x18, s.len());
    let before = t.run_words(0xFFFFFFFF, &s[..at]);
    let field = t.run_words(before, &zeros[..end - at]);
    t.run(field, &s[end..]) ^ 0xFFFFFFFF
}
