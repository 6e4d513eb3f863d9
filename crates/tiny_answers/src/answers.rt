// All answers for one image.
use console::words::InNumbers;
use kinds::Kinds;
use std::io;
use tiny_rules::judge;

// An image, the list of kinds that a reader knows, and where the answers of this reader are printed. (Each of the two programs has such a type, since a
// type has its methods in its own crate.)
#[derive(Clone, Copy)]
pub struct Answers<'a, P> {
    pub out: &'a P,
    pub image: &'a [u8],
    pub kinds: Kinds,
}

impl<P: Print> Answers<'_, P> {
    // The judge's answer, every item up to the count, every string up to the string count and one past it, items and strings at numbers far past these, and
    // the name.
    pub fn put(&self) -> io::Result<()> {
        let judged = judge(self.image, self.kinds);
        match judged {
            Ok(count) => println!(self.out; "accepted {count}")?,
            Err(refusal) => println!(self.out; "refused {}", InNumbers(refusal))?,
        }
        self.put_items(judged.unwrap_or(0))?;
        self.put_strings()?;
        self.put_names()
    }
}
