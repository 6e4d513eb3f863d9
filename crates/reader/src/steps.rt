// The walk. `fresh`, `step` and `step_numbered` are over a struct that holds the lent image; what a step does is `moved` and `shown`.
ghost use Rattle.std.specs.Prelude.{◌≡◌};
ghost use Rattle.reader.specs.Items.{item_at};
ghost use Rattle.reader.specs.Walk.{first, moved, shown, fresh_walk, stepped, step_numbered, steps_due};

use super::items::pool_of;
use super::layout::{first_place, go_on, items_end};
use super::{Format, Item, Position, StepAnswer, Walk, judge};
use kinds::Kinds;
use tiny_layout::Pool;
use verdict::Refusal;

// Where a walk begins. The image is judged here, and its pool and the end of its items are found: once for all steps.
fn first_position(format: Format, image: &[u8], kinds: Kinds) -> Position
    ensures { result ≡ first format kinds image.now }
{
    Position {
        verdict: judge(format, image, kinds),
        pool: pool_of(format, image, kinds),
        end: items_end(format, image),
        at: first_place(format),
    }
}

// The item at a place, whose strings lie in this pool.
fn item_at(format: Format, image: &[u8], kinds: Kinds, pool: Pool, at: u32) -> Item
    ensures { result ≡ item_at format kinds image.now pool at }
{
    match format {
        Format::Tiny => Item::Tiny(tiny::item_at(image, kinds, pool, at)),
        Format::Board => Item::Board(board::item_at(image, kinds, at)),
    }
}

// Where a step from any position leads: over an accepted image to the next item or to the end; over a refused one the walk stays.
fn moved(format: Format, image: &[u8], position: Position) -> u32
    ensures { result ≡ moved format image.now position }
{
    match position.verdict {
        Ok(_) => go_on(format, image, position.end, position.at),
        Err(_) => position.at,
    }
}

// What a step from any position shows: the item that it stands at, that none is left, or the refusal.
fn shown(format: Format, image: &[u8], kinds: Kinds, position: Position) -> StepAnswer
    ensures { result ≡ shown format kinds image.now position }
{
    match position.verdict {
        Ok(_) if position.at < position.end => {
            StepAnswer::Shown(item_at(format, image, kinds, position.pool, position.at))
        }
        Ok(_) => StepAnswer::NoneLeft,
        Err(refusal) => StepAnswer::Refused(refusal),
    }
}

// A walk over a lent image that has not stepped.
pub fn fresh<'a>(format: Format, image: &'a [u8], kinds: Kinds) -> Walk<'a>
    ensures { result ≡ fresh_walk format image.entry kinds }
{
    Walk {
        image,
        format,
        kinds,
        position: first_position(format, image, kinds),
        shows: StepAnswer::Nothing,
    }
}

// The walk after a step; it carries what the step shows. (The position is copied before the calls: compiled code then copies no part of it in a turn of a loop.)
pub fn step<'a>(walk: Walk<'a>) -> Walk<'a>
    ensures { result ≡ stepped walk.entry }
{
    let position = walk.position;
    Walk {
        position: Position {
            at: moved(walk.format, walk.image, position),
            ..position
        },
        shows: shown(walk.format, walk.image, walk.kinds, position),
        ..walk
    }
}

// How many steps come before the one of a number; those past the last item all show the same, so no more than there are items.
fn steps_due(verdict: Result<usize, Refusal>, number: usize) -> usize
    ensures { result ≡ steps_due verdict number }
{
    match verdict {
        Ok(count) => number.min(count),
        Err(_) => 0,
    }
}

// What the step of a number, counted from 0, shows: from a fresh walk, each step is given the walk that the last returned.
pub fn step_numbered(format: Format, image: &[u8], kinds: Kinds, number: usize) -> StepAnswer
    ensures { result ≡ step_numbered format kinds image.now number }
{
    let mut walk = fresh(format, image, kinds);
    let due = steps_due(walk.position.verdict, number);
    for _step in 0..due + 1 {
        walk = step(walk);
    }
    walk.shows
}
