// What a writer answers, with what its buffer then holds, as a line.
use super::put_spaced;
use super::words::InWords;
use std::io;
use verdict::Refusal;

// The bytes of the buffer that no image takes, if there are any; and the end of the line.
fn put_rest(out: &impl Print, rest: &[u8]) -> io::Result<()> {
    if !rest.is_empty() {
        print!(out; "; rest")?;
        put_spaced(out, rest)?;
    }
    println!(out)
}

// The answer to a request, and what the lent buffer holds after the call: an image of n bytes is at its front. (No writer says more bytes than were lent.)
pub fn put_written(
    out: &impl Print,
    answer: Result<usize, Refusal>,
    buffer: &[u8],
) -> io::Result<()> {
    match answer {
        Ok(n) => {
            print!(out; "length {n}:")?;
            let Some((image, rest)) = buffer.split_at_checked(n) else {
                return Ok(());
            };
            put_spaced(out, image)?;
            put_rest(out, rest)
        }
        Err(refusal) => {
            print!(out; "{}", InWords(refusal))?;
            put_rest(out, buffer)
        }
    }
}
