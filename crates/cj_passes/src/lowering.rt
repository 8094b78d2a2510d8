//! Lowering: the version that a draft becomes.

ghost use Rattle.std.specs.Prelude.{◌≡◌, ◌≤◌, [], ◌∷◌, ◌++◌, IfOk, OnOk, length, map, drop, reverse};
ghost use Rattle.cj_rows.specs.Edges.{led_place, IsClosed};
ghost use Rattle.cj_rows.specs.Tables.{IsTable, given};
ghost use Rattle.cj_passes.specs.Lowering.{renumbered, led, kept_of, lowered, IsLowered};
ghost use Rattle.cj_draft.specs.declared.limits.TheConstants.{MAX_CODE_LABELS};

use crate::reach::{passed, reached};
use cj_draft::{Code, Draft, Place, Places, Version};
use cj_ir::{Label, Labels, NoMemory};
use cj_rows::{given, led_place, reversed};
use std::alloc::Global;

/// The version that the draft becomes. Each edge to an Anchor, and the entry, goes to the first label after it that is no
/// Anchor. Labels that no path from the entry reaches go. The others keep their order, with new numbers from 0. The
/// program and the context stay.
pub fn lower<'p>(draft: Draft<'p>) -> Result<Version<'p>, NoMemory>
    ensures program { IfOk result (λ version. version.program ≡ draft.entry.program) }
    ensures context { IfOk result (λ version. version.context ≡ draft.entry.context) }
    ensures code { IfOk result (λ version. IsLowered draft.entry.code version.code) }
{
    let (checked, context, code) = draft.into_parts();
    let kept = reached(&code)?;
    let code = lowered(code, kept.items())?;
    Ok(Version::adopt_in(checked, context, code))
}

/// The code with the labels that are kept alone.
fn lowered(code: Code, kept: &[bool]) -> Result<Code, NoMemory>
    requires closed { IsClosed code }
    requires marks { length kept.now ≡ length code.places }
    requires few { length kept.now ≤ MAX_CODE_LABELS }
    ensures { IfOk result (λ made. made ≡ lowered code kept.now) }
{
    let table = led_labels(&code, kept)?;
    let entry = given(table.items(), code.entry);
    let places = kept_places(code.places, kept, table.items())?;
    Ok(Code {
        function: code.function,
        regs: code.regs,
        entry,
        places,
    })
}

/// For each label its new number: how many kept labels are below it.
#[tactic(auto, using(cj_rows::proofs::Tables::table_none))]
fn new_labels(alloc: Global, kept: &[bool]) -> Result<Labels, NoMemory>
    requires { length kept.now ≤ MAX_CODE_LABELS }
    ensures { IfOk result (IsTable (renumbered kept.now) (length kept.now)) }
{
    let mut labels = Labels::new(alloc);
    let mut number = 0;
    for &keeps in kept {
        labels.push(Label(number))?;
        if keeps {
            number += 1;
        }
    }
    Ok(labels)
}

/// For each label of the code, where an edge to it goes.
fn led_labels(code: &Code, kept: &[bool]) -> Result<Labels, NoMemory>
    requires closed { IsClosed code.now }
    requires marks { length kept.now ≡ length code.now.places }
    requires few { length kept.now ≤ MAX_CODE_LABELS }
    ensures { IfOk result (IsTable (led code.now kept.now) (length code.now.places)) }
{
    let alloc = code.places.allocator();
    let renumbered = new_labels(alloc, kept)?;
    let mut labels = Labels::new(alloc);
    for label in 0..code.places.items().len() {
        let to = passed(code, Label(label as u32));
        labels.push(renumbered.items()[to.0 as usize])?;
    }
    Ok(labels)
}

/// Moves the next place, which is the last one of `rest`, where it is kept, with its edges led by the table.
fn move_next(
    rest: &mut Places,
    keeps: bool,
    table: &[Label],
    made: &mut Places,
) -> Result<(), NoMemory>
    ensures rest { reverse rest.new ≡ drop 1 (reverse rest.old) }
    ensures made { OnOk result (made.new ≡ made.old ++ map (led_place (given table.now)) (kept_of (keeps ∷ []) (reverse rest.old))) }
{
    let Some(place) = rest.pop() else {
        return Ok(());
    };
    if keeps {
        made.push(led_place(place, table))?;
    }
    Ok(())
}

/// The places that are kept, in their order, with their edges led by the table.
fn kept_places(places: Places, kept: &[bool], table: &[Label]) -> Result<Places, NoMemory>
    ensures { IfOk result (λ made. made ≡ map (led_place (given table.now)) (kept_of kept.now places)) }
{
    let mut made = Places::new(places.allocator());
    let mut rest = reversed(places)?;
    for &keeps in kept {
        move_next(&mut rest, keeps, table, &mut made)?;
    }
    Ok(made)
}
