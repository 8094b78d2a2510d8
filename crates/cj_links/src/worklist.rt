//! Labels that wait to be worked on.

ghost use Rattle.std.specs.Prelude.{◌≡◌, ◌<◌, ◌↔◌, Contains, IfOk, IsTrue, IsFalse, slice_get, replicate};
ghost use Rattle.cj_ir.specs.declared.language.Label.{Label};
ghost use Rattle.cj_links.specs.Waiting.{none_waits, with_last, without_first, IsOrderly};

use cj_ir::{Label, Labels, NoMemory, Sequence};
use std::alloc::Global;
use std::marker::Model;

/// Labels that wait, each once, in the order in which they came.
///
/// Contracts see the number of labels that may wait, which never changes, and the list of those that do, the longest
/// waiting first. Only `new` takes memory.
#[derive(Debug, Drop)]
pub struct Worklist {
    slots: Labels,
    oldest: usize,
    count: usize,
    marks: Sequence<bool>,
}

impl Model for Worklist {
    ghost use Rattle.std.specs.Prelude.{length};
    ghost use Rattle.cj_links.specs.Waiting.{Waiting, waiting};
    ghost use Rattle.cj_links.specs.Slots.{window, IsRing};

    ghost Value = { Waiting };

    ghost view = { λ w. waiting (length w.slots) (window w.oldest w.count w.slots) };

    ghost invariant = { λ w. IsRing w.slots w.oldest w.count w.marks };
}

impl Worklist {
    /// The list in which none waits, for labels below a number.
    pub fn new(alloc: Global, labels: u32) -> Result<Worklist, NoMemory>
        ensures list { IfOk result (λ made. made ≡ none_waits labels) }
        ensures orderly { IfOk result (λ made. IsOrderly made) }
    {
        let slots = filled(alloc, labels, Label(0))?;
        let marks = filled(alloc, labels, false)?;
        Ok(Worklist {
            slots,
            oldest: 0,
            count: 0,
            marks,
        })
    }

    /// Lets a label wait, which is one of those that may. `false`: it waits already, and nothing changes.
    pub fn put(&mut self, label: Label) -> bool
        requires { label.0 < self.old.labels }
        ensures labels { self.new.labels ≡ self.old.labels }
        ensures waited { IsFalse result ↔ Contains self.old.list label }
        ensures kept { IsFalse result → self.new ≡ self.old }
        ensures added { IsTrue result → self.new ≡ with_last self.old label }
        ensures orderly { IsOrderly self.new }
    {
        let at = label.0 as usize;
        if self.marks.items()[at] {
            return false;
        }
        let free = (self.oldest + self.count) % self.slots.items().len();
        self.slots.set(free, label);
        self.marks.set(at, true);
        self.count += 1;
        true
    }

    /// The longest waiting label, which then waits no longer. `None`: none waits.
    pub fn take(&mut self) -> Option<Label>
        ensures label { result ≡ slice_get self.old.list 0 }
        ensures rest { self.new ≡ without_first self.old }
        ensures orderly { IsOrderly self.new }
    {
        if self.count == 0 {
            return None;
        }
        let label = self.slots.items()[self.oldest];
        self.marks.set(label.0 as usize, false);
        self.oldest = (self.oldest + 1) % self.slots.items().len();
        self.count -= 1;
        Some(label)
    }
}

/// The list of so many times this item.
pub(crate) fn filled<T: Copy + Drop>(
    alloc: Global,
    count: u32,
    item: T,
) -> Result<Sequence<T>, NoMemory>
    ensures { IfOk result (λ made. made ≡ replicate count item) }
{
    let mut made = Sequence::new(alloc);
    for _at in 0..count {
        made.push(item)?;
    }
    Ok(made)
}
