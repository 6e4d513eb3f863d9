// What programs do alike: they read their input into a lent buffer, and hand it on.
ghost use Rattle.std.specs.Prelude.{ℕ, List, ◌<◌, ◌≤◌, length};
ghost use Rattle.std.specs.Fn.{FnOnceReturnsAt};

use super::{at_end, put, read_full};
use std::io;

// Hands an image from standard input to `list`. Bytes that the buffer has no room for are not looked at.
pub fn with_image<L: FnOnce(&[u8]) -> io::Result<()>>(
    rt: &HostRuntime,
    program: &str,
    buffer: &mut [u8],
    list: L,
) -> io::Result<()>
    requires { L.IsAlwaysCallable list }
{
    let mut stdin = rt.stdin();
    let n = read_full(&mut stdin, buffer);
    if n < buffer.len() && !at_end(&mut stdin) {
        return eprintln!(rt; "{program}: standard input cannot be read");
    }
    list(&buffer[..n])
}

// Hands the front of standard input to `answer`, as far as the buffer has room for it.
pub fn with_front<A: FnOnce(&[u8]) -> io::Result<()>>(
    rt: &HostRuntime,
    buffer: &mut [u8],
    answer: A,
) -> io::Result<()>
    requires { A.IsAlwaysCallable answer }
    ensures { (front : List ℕ) × (length front ≤ length buffer.old) × FnOnceReturnsAt A.FnOnce answer front result }
{
    let n = read_full(&mut rt.stdin(), buffer);
    answer(&buffer[..n])
}

// Hands each image of a run to `answer`, with the `width` bytes in front of it, from which `length` tells how many bytes the image has; none that is cut off.
pub fn each_image<L: Fn(&[u8]) -> usize, A: Fn(&[u8], &[u8]) -> io::Result<()>>(
    run: &[u8],
    width: usize,
    length: L,
    answer: A,
) -> io::Result<()>
    requires some { 0 < width }
    requires told { L.IsAlwaysCallable length }
    requires answered { A.IsAlwaysCallable answer }
{
    let mut rest = run;
    while let Some((head, body)) = rest.split_at_checked(width) {
        let Some((image, more)) = body.split_at_checked(length(head)) else {
            return Ok(());
        };
        answer(head, image)?;
        rest = more;
    }
    Ok(())
}

// Hands each line of a text to `serve`, but for empty ones; where `serve` answers that it is no request, so it is printed.
fn serve_lines<S: Fn(&[u8]) -> io::Result<bool>>(
    out: &impl Print,
    text: &[u8],
    serve: S,
) -> io::Result<()>
    requires { S.IsAlwaysCallable serve }
{
    for line in text.split(|c| *c == b'\n') {
        if !line.is_empty() && !serve(line)? {
            put(out, b"not a request\n")?;
        }
    }
    Ok(())
}

// Hands the lines of standard input to `serve`. A line that is cut off would be another request: so nothing is done where the input cannot be read to its
// end, or is over what the buffer has room for, which is `most` bytes.
pub fn with_requests<S: Fn(&[u8]) -> io::Result<bool>>(
    rt: &HostRuntime,
    program: &str,
    most: &str,
    buffer: &mut [u8],
    serve: S,
) -> io::Result<()>
    requires { S.IsAlwaysCallable serve }
{
    let mut stdin = rt.stdin();
    let n = read_full(&mut stdin, buffer);
    if !at_end(&mut stdin) {
        return eprintln!(rt; "{program}: standard input is over {most} bytes or cannot be read");
    }
    serve_lines(&rt.stdout(), &buffer[..n], serve)
}
