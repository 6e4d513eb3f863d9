// All answers for one image.
use board_rules::judge;
use console::words::InNumbers;
use kinds::Kinds;
use std::io;

// An image, the list of kinds that a reader knows, and where the answers of this reader are printed. (Each of the two programs has such a type, since a
// type has its methods in its own crate.)
#[derive(Clone, Copy)]
pub struct Answers<'a, P> {
    pub out: &'a P,
    pub image: &'a [u8],
    pub kinds: Kinds,
}

impl<P: Print> Answers<'_, P> {
    // The judge's answer, items and their GPIO records, and the map's records.
    pub fn put(&self) -> io::Result<()> {
        let judged = judge(self.image, self.kinds);
        match judged {
            Ok(count) => println!(self.out; "accepted {count}")?,
            Err(refusal) => println!(self.out; "refused {}", InNumbers(refusal))?,
        }
        self.put_items(judged.unwrap_or(0))?;
        self.put_map_records()
    }
}
