// Strings by number.
use super::answers::Answers;
use super::text::shown;
use console::far::{FAR, LAST};
use console::words::InNumbers;
use std::io;
use tiny::string_numbered;
use tiny_layout::string_count;
use tiny_rules::{judge, pool_of};

impl<P: Print> Answers<'_, P> {
    fn put_string(&self, number: usize) -> io::Result<()> {
        print!(self.out; "string {number} ")?;
        match string_numbered(self.image, self.kinds, number) {
            Ok(reference) => println!(self.out; "{}", shown(self.image, reference)),
            Err(refusal) => println!(self.out; "refused {}", InNumbers(refusal)),
        }
    }

    // The string count of the listed pool; 0 of a refused image.
    fn count_strings(&self) -> usize {
        match judge(self.image, self.kinds) {
            Ok(_) => string_count(self.image, pool_of(self.image, self.kinds)),
            Err(_) => 0,
        }
    }

    // The strings from 0 to the string count, one past it, and at two numbers far past it.
    pub fn put_strings(&self) -> io::Result<()> {
        let count = self.count_strings();
        for number in 0..count {
            self.put_string(number)?;
        }
        // (A pool has at most 255 bytes, so nothing is cut off here.)
        for number in [count, count.saturating_add(1), FAR, LAST] {
            self.put_string(number)?;
        }
        Ok(())
    }
}
