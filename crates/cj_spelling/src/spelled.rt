//! What is spelled in words.

ghost use Rattle.std.specs.Prelude.{◌≡◌, ◌+◌, ◌++◌, ℕ, List, length, OnOk, All, ⊤, [], ◌∷◌};
ghost use Rattle.std.specs.List.{flat_map};
ghost use Rattle.cj_spelling.specs.Counting.{capped};
ghost use Rattle.cj_spelling.specs.Spelling.{counted};

use crate::counts::added;
use cj_ir::{FunId, Label, NoMemory, Reg, Sequence};

/// Words of 64 bits.
pub type Words = Sequence<u64>;

/// A part of a code, with its words.
pub trait Spelled: Drop {
    ghost words_of: { Self → List ℕ };

    ghost has_values: { Self → Type 0 };

    /// The count so far and the count of the words, or the greatest number of 64 bits where that is more.
    fn count(&self, so_far: u64) -> u64
        ensures { result ≡ capped (so_far + length (words_of self.now)) };

    /// Appends the words.
    fn write(&self, out: &mut Words) -> Result<(), NoMemory>
        ensures words { OnOk result (out.new ≡ out.old ++ words_of self.now) }
        ensures values { OnOk result (has_values self.now) };
}

impl Spelled for FunId {
    ghost words_of = { λ f. f.0 ∷ [] };

    ghost has_values = { λ f. ⊤ };

    fn count(&self, so_far: u64) -> u64 {
        added(so_far, 1)
    }

    fn write(&self, out: &mut Words) -> Result<(), NoMemory> {
        out.push(self.0 as u64)
    }
}

impl Spelled for Label {
    ghost words_of = { λ label. label.0 ∷ [] };

    ghost has_values = { λ label. ⊤ };

    fn count(&self, so_far: u64) -> u64 {
        added(so_far, 1)
    }

    fn write(&self, out: &mut Words) -> Result<(), NoMemory> {
        out.push(self.0 as u64)
    }
}

impl Spelled for Reg {
    ghost words_of = { λ reg. reg.0 ∷ [] };

    ghost has_values = { λ reg. ⊤ };

    fn count(&self, so_far: u64) -> u64 {
        added(so_far, 1)
    }

    fn write(&self, out: &mut Words) -> Result<(), NoMemory> {
        out.push(self.0 as u64)
    }
}

/// The count so far and the count of the items' words, capped.
fn count_each<T: Spelled>(items: &[T], so_far: u64) -> u64
    ensures { result ≡ capped (so_far + length (flat_map T.words_of items.now)) }
{
    let mut count = so_far;
    'each: for item in items {
        count = item.count(count);
    }
    count
}

/// Appends the items' words.
fn write_each<T: Spelled>(items: &[T], out: &mut Words) -> Result<(), NoMemory>
    ensures words { OnOk result (out.new ≡ out.old ++ flat_map T.words_of items.now) }
    ensures values { OnOk result (All T.has_values items.now) }
{
    'each: for item in items {
        match item.write(out) {
            Ok(()) => {}
            Err(error) => return Err(error),
        }
    }
    Ok(())
}

impl<T: Spelled> Spelled for Sequence<T> {
    ghost words_of = { counted T.words_of };

    ghost has_values = { All T.has_values };

    fn count(&self, so_far: u64) -> u64 {
        count_each(self.items(), added(so_far, 1))
    }

    fn write(&self, out: &mut Words) -> Result<(), NoMemory> {
        out.push(self.items().len() as u64)?;
        write_each(self.items(), out)
    }
}
