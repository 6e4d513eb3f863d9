// Items by number, and what each step of a walk shows.
use super::answers::Answers;
use super::shown::put_shown;
use board::item_numbered;
use console::far::{FAR, LAST};
use console::words::InNumbers;
use reader::{Format, StepAnswer, step_numbered};
use std::io;

impl<P: Print> Answers<'_, P> {
    // An item of a walk, which is of this format.
    fn put_stepped(&self, item: reader::Item) -> io::Result<()> {
        match item {
            reader::Item::Tiny(_) => println!(self.out; "tiny"),
            reader::Item::Board(shown) => put_shown(self.out, shown),
        }
    }

    // What the step of a number shows, from a fresh walk on.
    fn put_step(&self, number: usize) -> io::Result<()> {
        print!(self.out; "step {number} ")?;
        match step_numbered(Format::Board, self.image, self.kinds, number) {
            StepAnswer::Nothing => println!(self.out; "nothing"),
            StepAnswer::Shown(item) => self.put_stepped(item),
            StepAnswer::NoneLeft => println!(self.out; "none left"),
            StepAnswer::Refused(refusal) => println!(self.out; "refused {}", InNumbers(refusal)),
        }
    }

    // The answer for the item of a number, for the step of that number, and for its GPIO records.
    fn put_item(&self, number: usize) -> io::Result<()> {
        print!(self.out; "item {number} ")?;
        match item_numbered(self.image, self.kinds, number) {
            Ok(shown) => put_shown(self.out, shown)?,
            Err(refusal) => println!(self.out; "refused {}", InNumbers(refusal))?,
        }
        self.put_step(number)?;
        self.put_gpio_records(number)
    }

    // The items of the first numbers, at most 24 of them, and those at the count and at two numbers far past it.
    pub fn put_items(&self, count: usize) -> io::Result<()> {
        for number in 0..count.min(24) {
            self.put_item(number)?;
        }
        for number in [count, FAR, LAST] {
            self.put_item(number)?;
        }
        Ok(())
    }
}
