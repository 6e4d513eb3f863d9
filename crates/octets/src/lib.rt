// Bytes of an image: numbers and runs of bytes at a place, text, labels, numbers as bytes, and bytes put into a buffer.
// Every function is total: a byte past the end of the image reads as 0, so that no caller owes a bound.

#![tactic(auto)]

ghost use Rattle.std.specs.Prelude.{◌≡◌, ◌+◌, ◌≤◌, ◌<◌, true, length, None};
ghost use Rattle.octets.specs.Bytes.{byte, le16, le32, le64, run};
ghost use Rattle.octets.specs.Put.{put};
ghost use Rattle.octets.specs.Runs.{difference, same_run, nonzero};

pub mod label;

// Where something lies in an image, and how many bytes it has.
#[derive(Clone, Copy)]
pub struct Span {
    pub place: usize,
    pub length: usize,
}

// The byte i places after `at`.
pub fn byte_from(s: &[u8], at: usize, i: usize) -> u8
    ensures { result ≡ byte s.now (at + i) }
{
    if at < s.len() && i < s.len() - at {
        return s[at + i];
    }
    0
}

// The byte at a place.
pub fn byte_at(s: &[u8], at: usize) -> u8
    ensures { result ≡ byte s.now at }
{
    if at < s.len() {
        return s[at];
    }
    0
}

// The little-endian number of two bytes. (A function for each size of number, and none over the size: the compiler makes loads of them, each in its way.)
pub fn le16_at(s: &[u8], at: usize) -> u16
    ensures { result ≡ le16 s.now at }
{
    u16::from_le_bytes([byte_from(s, at, 0), byte_from(s, at, 1)])
}

// The little-endian number of four bytes within the image, which the compiler makes one load.
fn le32_within(s: &[u8], at: usize) -> u32
    requires { at + 4 ≤ length s.now }
    ensures { result ≡ le32 s.now at }
{
    u32::from_le_bytes([s[at], s[at + 1], s[at + 2], s[at + 3]])
}

// The little-endian number of eight bytes within the image, which is one load too.
fn le64_within(s: &[u8], at: usize) -> u64
    requires { at + 8 ≤ length s.now }
    ensures { result ≡ le64 s.now at }
{
    le32_within(s, at) as u64 + le32_within(s, at + 4) as u64 * 4294967296
}

// The little-endian number of four bytes. The compiler makes one load of four that lie within, unless both ways begin with the same byte; so
// the other way, at the end of the image, begins with the high half.
pub fn le32_at(s: &[u8], at: usize) -> u32
    ensures { result ≡ le32 s.now at }
{
    if at < s.len() {
        if 4 <= s.len() - at {
            return le32_within(s, at);
        }
        let high = le16_at(s, at + 2) as u32;
        return le16_at(s, at) as u32 + high * 65536;
    }
    0
}

// The little-endian number of eight bytes.
pub fn le64_at(s: &[u8], at: usize) -> u64
    ensures { result ≡ le64 s.now at }
{
    if at < s.len() {
        if 8 <= s.len() - at {
            return le64_within(s, at);
        }
        return le32_at(s, at) as u64 + le32_at(s, at + 4) as u64 * 4294967296;
    }
    0
}

// The N bytes at a place, in image order.
pub fn bytes_at<const N: usize>(s: &[u8], at: usize) -> [u8; N]
    ensures { result ≡ run s.now at N }
{
    let mut bytes = [0u8; N];
    for i in 0..N {
        bytes[i] = byte_from(s, at, i);
    }
    bytes
}

// The offset of the first byte at which two runs of n bytes differ: a's from p on, and b's from q on.
pub fn first_difference(a: &[u8], p: usize, b: &[u8], q: usize, n: usize) -> Option<usize>
    ensures { result ≡ difference a.now p b.now q n }
{
    for i in 0..n {
        if byte_from(a, p, i) != byte_from(b, q, i) {
            return Some(i);
        }
    }
    None
}

// Whether two runs of n bytes are equal: a's from p on, and b's from q on.
pub fn same_run(a: &[u8], p: usize, b: &[u8], q: usize, n: usize) -> bool
    ensures { result ≡ same_run a.now p b.now q n }
{
    first_difference(a, p, b, q, n).is_none()
}

// Whether a run of eight to sixteen bytes within the image is zero, in two loads: of its first eight bytes and its last eight, which may overlap.
// Of any other run it tells nothing.
fn zero_run(s: &[u8], at: usize, from: usize, to: usize) -> bool
    ensures { result ≡ true → nonzero s.now at from to ≡ None }
{
    if at < s.len() && to <= s.len() - at && 8 <= to && from <= to - 8 && to - from <= 16 {
        return le64_within(s, at + from) == 0 && le64_within(s, at + to - 8) == 0;
    }
    false
}

// The first byte that is not zero, of those from `from` up to `to` places after `at`.
pub fn first_nonzero(s: &[u8], at: usize, from: usize, to: usize) -> Option<usize>
    ensures { result ≡ nonzero s.now at from to }
{
    if zero_run(s, at, from, to) {
        return None;
    }
    for i in from..to {
        if byte_from(s, at, i) != 0 {
            return Some(at + i);
        }
    }
    None
}

// These bytes into a lent buffer from a place on; where they do not fit, nothing changes.
pub fn put_at(bytes: &[u8], at: usize, buffer: &mut [u8])
    ensures { buffer.new ≡ put bytes.now at buffer.old }
{
    if at <= buffer.len() && bytes.len() <= buffer.len() - at {
        buffer[at..at + bytes.len()].copy_from_slice(bytes);
    }
}
