// Standard input and output, for the programs. What prints takes a handle of the output, and answers the error of a write that fails.

#![tactic(auto)]

ghost use Rattle.std.specs.Prelude.{◌≡◌, ◌≤◌, length};
ghost use Rattle.console.specs.Counts.{IsPrefixLen};
ghost use Rattle.console.specs.Digit.{hex_digit};

use std::io;
use std::io::Read;

pub mod far;
pub mod program;
pub mod request;
pub mod show;
pub mod words;
pub mod written;

// Bytes as they are.
pub fn put(out: &impl Print, text: &[u8]) -> io::Result<()> {
    out.write_all(text)
}

// The digit of the low four bits.
pub fn digit(n: u8) -> u8
    ensures { result ≡ hex_digit n }
{
    let d = n % 16;
    if d < 10 {
        return 0x30 + d;
    }
    0x37 + d
}

// At most 1,024 bytes, each as a blank and two digits, handed over at once.
fn put_block(out: &impl Print, bytes: &[u8]) -> io::Result<()>
    requires { length bytes.now ≤ 1024 }
{
    let mut text = [b' '; 3072];
    for i in 0..bytes.len() {
        text[3 * i + 1] = digit(bytes[i] / 16);
        text[3 * i + 2] = digit(bytes[i]);
    }
    put(out, &text[..3 * bytes.len()])
}

// Bytes, each as a blank and two digits. (No `Display`: by one, which hands over a digit at a time, a writer's answer takes up to ten times as long.)
pub fn put_spaced(out: &impl Print, bytes: &[u8]) -> io::Result<()> {
    for block in bytes.chunks(1024) {
        put_block(out, block)?;
    }
    Ok(())
}

// Reads until the buffer is full, the input ends or a read fails, and returns how many bytes it put at the front of the buffer. (std's `read_exact` does not
// say how many it had put there when the input ended.)
pub fn read_full(input: &mut impl Read, buffer: &mut [u8]) -> usize
    ensures { IsPrefixLen result buffer.new }
{
    let mut done = 0;
    // No `for` over a range: a read tells how far it came.
    while done < buffer.len() {
        let n = match input.read(&mut buffer[done..]) {
            Ok(n) => n,
            Err(_) => 0,
        };
        if n == 0 {
            break;
        }
        done += n;
    }
    done
}

// Whether input is at its end: a read gives nothing, and does not fail.
pub fn at_end(input: &mut impl Read) -> bool {
    let mut rest = [0u8; 1];
    matches!(input.read(&mut rest), Ok(0))
}
