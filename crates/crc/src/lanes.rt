// CRC-32 in four lanes: each 32 bytes are four words of eight bytes, and word k of them goes to lane k, so that four words are under way at a time.
// A lane goes on by 256 shifts, by eight tables of what 256 shifts make of each byte of a word.
ghost use Rattle.std.specs.Prelude.{◌≡◌, ℕ, fold};
ghost use Rattle.std.specs.Int.Bits.{bit_xor};
ghost use Rattle.octets.specs.Bytes.{little};
ghost use Rattle.crc.specs.Crc32.{shifts, run32};
ghost use Rattle.crc.specs.Tables.{Stand};

use super::lane_tables::LaneTables;
use super::word_tables::WordTables;

// Four lanes, which stand for one register (`Stand`).
#[derive(Clone, Copy)]
struct Lanes {
    a0: u32,
    a1: u32,
    a2: u32,
    a3: u32,
}

// The number that eight bytes spell, by its two halves: from two loads of four bytes the compiler takes a byte in one step fewer than from one load of
// eight (`u64::from_le_bytes`), with which a message of 64 KiB takes a tenth longer.
fn by_halves(w: &[u8; 8]) -> u64
    ensures { result ≡ little w.now }
{
    let [b0, b1, b2, b3, b4, b5, b6, b7] = *w;
    let low = u32::from_le_bytes([b0, b1, b2, b3]);
    let high = u32::from_le_bytes([b4, b5, b6, b7]);
    low as u64 + high as u64 * 0x1_0000_0000
}

impl LaneTables {
    // A lane takes eight bytes.
    fn lane(&self, a: u32, w: &[u8; 8]) -> u32
        ensures { result ≡ shifts 256 (bit_xor a (little w.now)) }
    {
        self.shifted((a as u64) ^ by_halves(w))
    }

    // Each lane takes its word of a block. They stand for the register after it, from the register R that they stood for.
    fn turn(&self, lanes: Lanes, block: &[u8; 32]) -> Lanes
        ensures { (R : ℕ) → Stand lanes.a0 lanes.a1 lanes.a2 lanes.a3 R → Stand result.a0 result.a1 result.a2 result.a3 (run32 R block.now) }
    {
        let (words, _) = block.as_chunks::<8>();
        Lanes {
            a0: self.lane(lanes.a0, &words[0]),
            a1: self.lane(lanes.a1, &words[1]),
            a2: self.lane(lanes.a2, &words[2]),
            a3: self.lane(lanes.a3, &words[3]),
        }
    }
}

impl Lanes {
    // The four lanes take a word of the block each and come together: the register after it, from the register R that they stand for.
    fn join(self, t: &WordTables, block: &[u8; 32]) -> u32
        ensures { (R : ℕ) → Stand self.a0 self.a1 self.a2 self.a3 R → result ≡ run32 R block.now }
    {
        let (words, _) = block.as_chunks::<8>();
        let r0 = t.word(self.a0, &words[0]);
        let r1 = t.word(r0 ^ self.a1, &words[1]);
        let r2 = t.word(r1 ^ self.a2, &words[2]);
        t.word(r2 ^ self.a3, &words[3])
    }
}

impl WordTables {
    // The register after the blocks, from c: the lanes go over all but the last, in which they come together.
    fn run_blocks(&self, c: u32, blocks: &[[u8; 32]]) -> u32
        ensures { result ≡ fold run32 c blocks.now }
    {
        let Some((last, others)) = blocks.split_last() else {
            return c;
        };
        let u = LaneTables::new();
        let mut lanes = Lanes {
            a0: c,
            a1: 0,
            a2: 0,
            a3: 0,
        };
        for block in others {
            lanes = u.turn(lanes, block);
        }
        lanes.join(self, last)
    }

    // The register after the bytes of s, from c: 32 at a time, and then the rest.
    pub(crate) fn run_lanes(&self, c: u32, s: &[u8]) -> u32
        ensures { result ≡ run32 c s.now }
    {
        let (blocks, rest) = s.as_chunks::<32>();
        self.run_words(self.run_blocks(c, blocks), rest)
    }
}
