// The lines of a listing.
use super::fields::{Product, shown};
use console::show::{Address, Text};
use console::words::InWords;
use kinds::Kinds;
use std::io;
use tiny::{Item, PoolShown, ShownItem, item_at};
use tiny_layout::{Pool, check_place, item_size, string_at};
use tiny_rules::{judge, pool_of};

// The strings of a pool, a line for each. (A string tells where the next one starts, so this is no loop over a range.)
fn put_strings(out: &impl Print, image: &[u8], pool: Pool) -> io::Result<()> {
    let mut at = pool.from as usize;
    let mut number = 0usize;
    // No `for` over a range: each string tells where the next one starts.
    while at < pool.to as usize {
        let span = string_at(image, pool.to, at);
        print!(out; "\n  {number} {}", Text { image, span })?;
        at += span.length;
        number += 1;
    }
    Ok(())
}

// A pool: how many strings, and then these.
fn put_pool(out: &impl Print, image: &[u8], pool: Pool, shown: PoolShown) -> io::Result<()> {
    print!(out; "pool strings {}", shown.count)?;
    put_strings(out, image, pool)
}

// What an item says.
fn put_fields(
    out: &impl Print,
    image: &[u8],
    pool: Pool,
    length: usize,
    item: Item,
) -> io::Result<()> {
    match item {
        Item::Pool(shown) => put_pool(out, image, pool, shown),
        Item::Serial(reference) => print!(out; "serial {}", shown(image, reference)),
        Item::Flags(flags) => print!(out; "flags {flags:02X}h"),
        Item::Address(six) => print!(out; "address {}", Address(six)),
        Item::Identity(identity) => print!(out; "{}", Product { image, identity }),
        Item::Batched(batched) => {
            let identity = batched.identity;
            print!(out;
                "{} batch {:04}",
                Product { image, identity },
                batched.batch
            )
        }
        Item::NotKnown => print!(out; "unknown length {length}"),
    }
}

// The line of an item.
fn put_item(out: &impl Print, image: &[u8], pool: Pool, shown: ShownItem) -> io::Result<()> {
    print!(out; "{} {:02X} ", shown.place, shown.tag)?;
    put_fields(out, image, pool, shown.length, shown.item)?;
    println!(out)
}

// The lines of all items. (An item tells where the next one starts, so this is no loop over a range.)
fn put_items(out: &impl Print, image: &[u8], kinds: Kinds) -> io::Result<()> {
    let pool = pool_of(image, kinds);
    let end = check_place(image) as usize;
    let mut at = 3;
    // No `for` over a range: each item tells where the next one starts.
    while at < end {
        put_item(out, image, pool, item_at(image, kinds, pool, at as u32))?;
        at += item_size(image, at) as usize;
    }
    Ok(())
}

// The listing of an image.
pub fn list(out: &impl Print, image: &[u8]) -> io::Result<()> {
    let kinds = Kinds::full_list();
    match judge(image, kinds) {
        Ok(count) => {
            let length = check_place(image) as usize + 1;
            println!(out; "tiny 2 items {count} length {length}")?;
            put_items(out, image, kinds)
        }
        Err(refusal) => println!(out; "{}", InWords(refusal)),
    }
}
