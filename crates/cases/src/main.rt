// Prints check values, one to a line. The file stdout beside it has what they must be: values of published catalogues, the check bytes of
// the build paper's images, and for the pattern those of another program (zlib, and a bitwise CRC-8).

#![tactic(auto)]

ghost use Rattle.std.specs.Prelude.{◌≤◌, length};

use console::{digit, put};
use crc::{crc8, crc32};
use std::io;

// The last digits of x, as many as out has room for.
fn hex(out: &mut [u8], x: u32) {
    let mut y = x;
    for d in out.iter_mut().rev() {
        *d = digit((y % 16) as u8);
        y /= 16;
    }
}

// One line: the name of a case, a colon, and x in N digits.
fn line<const N: usize>(out: &impl Print, name: &[u8], x: u32) -> io::Result<()>
    requires { N ≤ 8 }
{
    let mut digits = [0u8; N];
    hex(&mut digits, x);
    put(out, name)?;
    put(out, b": ")?;
    put(out, &digits)?;
    put(out, b"\n")
}

// The byte i is i * m, in its last eight bits.
fn pattern(s: &mut [u8], m: u8) {
    let mut x: u8 = 0;
    for b in s {
        *b = x;
        x = x.wrapping_add(m);
    }
}

// Texts whose check values are published.
fn texts(out: &impl Print) -> io::Result<()> {
    line::<2>(out, b"crc-8 \"123456789\"", crc8::crc8(b"123456789") as u32)?;
    line::<8>(out, b"crc-32 \"123456789\"", crc32::crc32(b"123456789"))?;
    line::<8>(out, b"crc-32 \"\"", crc32::crc32(b""))?;
    line::<8>(out, b"crc-32 \"a\"", crc32::crc32(b"a"))?;
    line::<8>(out, b"crc-32 \"abc\"", crc32::crc32(b"abc"))?;
    line::<8>(
        out,
        b"crc-32 \"message digest\"",
        crc32::crc32(b"message digest"),
    )
}

// Longer ones.
fn letters(out: &impl Print) -> io::Result<()> {
    line::<8>(
        out,
        b"crc-32 a to z",
        crc32::crc32(b"abcdefghijklmnopqrstuvwxyz"),
    )?;
    line::<8>(
        out,
        b"crc-32 \"The quick brown fox jumps over the lazy dog\"",
        crc32::crc32(b"The quick brown fox jumps over the lazy dog"),
    )
}

// 32 bytes: zeros, ones, and 00h to 1Fh.
fn blocks(out: &impl Print) -> io::Result<()> {
    line::<8>(out, b"crc-32 32 bytes 00", crc32::crc32(&[0u8; 32]))?;
    line::<8>(out, b"crc-32 32 bytes FF", crc32::crc32(&[255u8; 32]))?;
    let mut s = [0u8; 32];
    pattern(&mut s, 1);
    line::<8>(out, b"crc-32 00 to 1F", crc32::crc32(&s))
}

// Images, all but the check byte.
fn images(out: &impl Print) -> io::Result<()> {
    line::<2>(out, b"crc-8 56 02 04", crc8::crc8(b"\x56\x02\x04") as u32)?;
    line::<2>(
        out,
        b"crc-8 56 02 06 11 0F",
        crc8::crc8(b"\x56\x02\x06\x11\x0F") as u32,
    )?;
    line::<2>(
        out,
        b"crc-8 56 02 0C 10 00 01 04 74 6F 70 B1",
        crc8::crc8(b"\x56\x02\x0C\x10\x00\x01\x04\x74\x6F\x70\xB1") as u32,
    )
}

// The check values of s in two parts, the first of them n bytes long.
fn two_parts8(s: &[u8], n: usize) -> u8
    requires { n ≤ length s.now }
{
    crc8::crc8_run(crc8::crc8(&s[0..n]), &s[n..])
}

fn two_parts32(s: &[u8], n: usize) -> u32
    requires { n ≤ length s.now }
{
    crc32::crc32_run(crc32::crc32_run(0xFFFFFFFF, &s[0..n]), &s[n..]) ^ 0xFFFFFFFF
}

// A pattern, the byte i being i * 7: whole, in two parts, and with the bytes 14h to 17h as zero.
fn patterns(out: &impl Print, s: &mut [u8]) -> io::Result<()>
    requires { 333 ≤ length s.old }
{
    pattern(s, 7);
    line::<2>(out, b"crc-8 pattern", crc8::crc8(s) as u32)?;
    line::<2>(
        out,
        b"crc-8 pattern, in two parts",
        two_parts8(s, 333) as u32,
    )?;
    line::<8>(out, b"crc-32 pattern", crc32::crc32(s))?;
    line::<8>(out, b"crc-32 pattern, in two parts", two_parts32(s, 333))?;
    line::<8>(
        out,
        b"crc-32 pattern, 14h to 17h as zero",
        crc32::crc32_field_as_zero(s),
    )
}

fn main(rt: HostRuntime) -> io::Result<()> {
    let out = rt.stdout();
    texts(&out)?;
    letters(&out)?;
    blocks(&out)?;
    images(&out)?;
    let mut s = [0u8; 1000];
    patterns(&out, &mut s)
}
