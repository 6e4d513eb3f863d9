// Items by number, and what each step of a walk shows.
use super::answers::Answers;
use super::text::shown;
use console::far::{FAR, LAST};
use console::show::Hex;
use console::words::InNumbers;
use reader::{Format, StepAnswer, step_numbered};
use std::io;
use tiny::{Identity, Item, ShownItem, item_numbered, major_text};

impl<P: Print> Answers<'_, P> {
    fn put_identity(&self, identity: Identity) -> io::Result<()> {
        let serial = shown(self.image, identity.serial);
        let part = shown(self.image, identity.part);
        print!(self.out; "serial {serial} part {part}")?;
        let text = major_text(identity.major);
        print!(self.out; " major {:02X} shown {}", identity.major, Hex(&text))?;
        print!(self.out;
            " minor {} characters {}",
            identity.minor,
            Hex(&identity.characters)
        )
    }

    // What a known item shows.
    fn put_fields(&self, item: Item) -> io::Result<()> {
        match item {
            Item::Pool(pool) => {
                let bytes = pool.bytes;
                print!(self.out;
                    "strings {} data {} {}",
                    pool.count, bytes.place, bytes.length
                )
            }
            Item::Serial(reference) => print!(self.out; "serial {}", shown(self.image, reference)),
            Item::Flags(flags) => print!(self.out; "flags {flags:02X}"),
            Item::Address(six) => print!(self.out; "address {}", Hex(&six)),
            Item::Identity(identity) => self.put_identity(identity),
            Item::Batched(batched) => {
                self.put_identity(batched.identity)?;
                print!(self.out; " batch {}", batched.batch)
            }
            Item::NotKnown => print!(self.out; "unknown"),
        }
    }

    fn put_shown(&self, shown: ShownItem) -> io::Result<()> {
        print!(self.out;
            "tag {:02X} place {} length {} ",
            shown.tag, shown.place, shown.length
        )?;
        self.put_fields(shown.item)?;
        println!(self.out)
    }

    // An item of a walk, which is of this format.
    fn put_stepped(&self, item: reader::Item) -> io::Result<()> {
        match item {
            reader::Item::Tiny(shown) => self.put_shown(shown),
            reader::Item::Board(_) => println!(self.out; "board"),
        }
    }

    // What the step of a number shows, from a fresh walk on.
    fn put_step(&self, number: usize) -> io::Result<()> {
        print!(self.out; "step {number} ")?;
        match step_numbered(Format::Tiny, self.image, self.kinds, number) {
            StepAnswer::Nothing => println!(self.out; "nothing"),
            StepAnswer::Shown(item) => self.put_stepped(item),
            StepAnswer::NoneLeft => println!(self.out; "none left"),
            StepAnswer::Refused(refusal) => println!(self.out; "refused {}", InNumbers(refusal)),
        }
    }

    // The answer for the item of a number, and for the step of that number.
    fn put_item(&self, number: usize) -> io::Result<()> {
        print!(self.out; "item {number} ")?;
        match item_numbered(self.image, self.kinds, number) {
            Ok(shown) => self.put_shown(shown)?,
            Err(refusal) => println!(self.out; "refused {}", InNumbers(refusal))?,
        }
        self.put_step(number)
    }

    // The items from 0 to the count and at two numbers far past it, and the steps of these numbers.
    pub fn put_items(&self, count: usize) -> io::Result<()> {
        for number in 0..count {
            self.put_item(number)?;
        }
        for number in [count, FAR, LAST] {
            self.put_item(number)?;
        }
        Ok(())
    }
}
