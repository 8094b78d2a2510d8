//! Lists of items, read from their words.

ghost use Rattle.std.specs.Prelude.{◌≡◌, []};
ghost use Rattle.cj_codec.specs.declared.reader.Limits.{Limits};
ghost use Rattle.cj_spelling.specs.Formats.{Reading, each_at, one_more_at, counted_at, word_at, at_most_at};
ghost use Rattle.cj_codec.specs.Answers.{left, Gives, Grows};

use crate::reader::{Limits, ReadError, WordReader, remembered};
use cj_ir::Sequence;
use std::alloc::Global;

/// An item of a list, which is read from the front of some words.
pub trait Item: Drop {
    ghost reading: { Limits → Reading Self };

    fn read(alloc: Global, words: &mut WordReader<'_>, limits: Limits) -> Result<Self, ReadError>
        ensures { Gives result (left words.new) (reading limits (left words.old)) };
}

// One more item.
fn add_item<T: Item>(
    alloc: Global,
    words: &mut WordReader<'_>,
    limits: Limits,
    items: &mut Sequence<T>,
) -> Result<(), ReadError>
    ensures { Grows result items.new (left words.new) (one_more_at (T.reading limits) items.old (left words.old)) }
{
    let item = T::read(alloc, words, limits)?;
    remembered(items.push(item))
}

#[tactic(auto, using(crate::proofs::Growing::each_done, crate::proofs::Growing::each_fails))]
/// So many items.
pub fn read_each<T: Item>(
    alloc: Global,
    words: &mut WordReader<'_>,
    limits: Limits,
    count: u64,
) -> Result<Sequence<T>, ReadError>
    ensures { Gives result (left words.new) (each_at (T.reading limits) count [] (left words.old)) }
{
    let mut items = Sequence::new(alloc);
    'more: for k in 0..count {
        match add_item(alloc, words, limits, &mut items) {
            Ok(()) => {}
            Err(error) => return Err(error),
        }
    }
    Ok(items)
}

/// A count and so many items.
pub fn read_counted<T: Item>(
    alloc: Global,
    words: &mut WordReader<'_>,
    limits: Limits,
) -> Result<Sequence<T>, ReadError>
    ensures { Gives result (left words.new) (counted_at word_at (T.reading limits) (left words.old)) }
{
    let count = words.next()?;
    read_each(alloc, words, limits, count)
}

/// A count, which is at most that, and so many items.
pub fn read_few<T: Item>(
    alloc: Global,
    words: &mut WordReader<'_>,
    limits: Limits,
    most: u32,
) -> Result<Sequence<T>, ReadError>
    ensures { Gives result (left words.new) (counted_at (at_most_at most) (T.reading limits) (left words.old)) }
{
    let count = words.at_most(most)?;
    read_each(alloc, words, limits, count as u64)
}
