// CRC-32 eight bytes at a time, by sixteen tables of sixteen entries: one for each four bits of a word.
ghost use Rattle.std.specs.Prelude.{◌≡◌};
ghost use Rattle.crc.specs.Crc32.{step32, run32};

use super::word_tables::WordTables;

impl WordTables {
    // The register after the byte b, from c.
    fn step(&self, c: u32, b: u8) -> u32
        ensures { result ≡ step32 c b }
    {
        let x = c ^ (b as u32);
        self.lookup(2, x / 256, x as u64)
    }

    // The register after the bytes of s, from c, one by one.
    fn run_bytes(&self, c: u32, s: &[u8]) -> u32
        ensures { result ≡ run32 c s.now }
    {
        s.iter().fold(c, |r, b| self.step(r, *b))
    }

    // The register after four bytes, from c. (Two functions, `half` and `word`: each size of number has a `from_le_bytes` of its own, and a trait over both
    // would be longer.)
    fn half(&self, c: u32, w: &[u8; 4]) -> u32
        ensures { result ≡ run32 c w.now }
    {
        self.lookup(8, 0, (c ^ u32::from_le_bytes(*w)) as u64)
    }

    // The register after eight bytes, from c.
    pub(crate) fn word(&self, c: u32, w: &[u8; 8]) -> u32
        ensures { result ≡ run32 c w.now }
    {
        self.shifted((c as u64) ^ u64::from_le_bytes(*w))
    }

    // The register after the bytes of s, from c: four at once if there are so many, and the others one by one.
    fn run_rest(&self, c: u32, s: &[u8]) -> u32
        ensures { result ≡ run32 c s.now }
    {
        match s.split_first_chunk::<4>() {
            Some((w, rest)) => self.run_bytes(self.half(c, w), rest),
            None => self.run_bytes(c, s),
        }
    }

    // The register after the bytes of s, from c: eight at a time, and then the rest.
    pub(crate) fn run_words(&self, c: u32, s: &[u8]) -> u32
        ensures { result ≡ run32 c s.now }
    {
        let (words, rest) = s.as_chunks::<8>();
        let r = words.iter().fold(c, |r, w| self.word(r, w));
        self.run_rest(r, rest)
    }
}
