// Tables of what shifts make of a word of 64 bits, part by part.
ghost use Rattle.std.specs.Prelude.{◌≡◌, ◌+◌, ◌-◌, ◌*◌, ◌/◌, ◌^◌, ◌≤◌, ◌<◌};
ghost use Rattle.crc.specs.Crc32.{shifts};
ghost use Rattle.crc.specs.Tables.{Table};

// Tables of what N shifts make of a word, one for each part of W bits, with LEN entries in all.
#[derive(Drop)]
pub(crate) struct Tables<const W: usize, const N: usize, const LEN: usize> {
    pub(crate) entries: [u32; LEN],
    ghost parts: { (0 < W) × (W ≤ 8) × (W * (64 / W) ≡ 64) },
    ghost size: { LEN ≡ 2 ^ W * (64 / W) },
    ghost word_or_more: { 64 ≤ N },
    ghost right: { Table W N entries },
}

impl<const W: usize, const N: usize, const LEN: usize> Tables<W, N, LEN> {
    // What N - 64 + W k shifts make of x, by the last k tables: one for each of its low k parts. `top` is what N - 64 shifts make of what stands above them.
    // The highest part goes first, so that those with the register in them, which are known last, come last.
    pub(crate) fn lookup(&self, k: usize, top: u32, x: u64) -> u32
        requires { (k ≤ 64 / W) × (top ≡ shifts (N - 64) (x / 2 ^ (W * k))) }
        ensures { result ≡ shifts (N - 64 + W * k) x }
    {
        let mut r = top;
        for j in (0..k).rev() {
            let part = (x >> (W * j)) % (1 << W);
            r ^= self.entries[(64 / W - k + j) * (1 << W) + part as usize];
        }
        r
    }

    // What N shifts make of x.
    pub(crate) fn shifted(&self, x: u64) -> u32
        ensures { result ≡ shifts N x }
    {
        self.lookup(64 / W, 0, x)
    }
}
