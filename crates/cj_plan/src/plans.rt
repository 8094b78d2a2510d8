//! The plan of a function at a level.

ghost use Rattle.std.specs.Prelude.{◌≡◌, ◌++◌, ◌+◌, ◌∷◌, [], ◌≤◌, ◌<◌, length, IfOk, OnOk};
ghost use Rattle.cj_draft.specs.declared.passes.Pass.TheVariants.{Anchors};
ghost use Rattle.cj_profile.specs.Snapshots.{FitsFunction};
ghost use Rattle.cj_plan.specs.Plan.{label, assumes, first_cold, entry_passes, delay_passes, first_plan, second_plan, inline_passes, guards_in, colds_in, planned};
ghost use Rattle.cj_ir.specs.declared.limits.TheConstants.{MAX_PARAMS, MAX_LABELS};

use crate::colds::{add_delays, colds_in};
use crate::guards::guards_in;
use crate::inlines::add_inlines;
use cj_draft::{Pass, Passes};
use cj_ir::{Checked, FunId, Guards, Label, Labels, Line, NoMemory};
use cj_profile::Snapshot;
use std::alloc::Global;

/// The passes for a function at a level from 1 to 3, by a snapshot of as many parameters and labels as it has.
///
/// Level 1 puts an Anchor before the entry, after it guards on the parameters whose arguments agreed `AGREEMENTS` times or
/// more, and propagates constants. Level 2 besides puts an Anchor before the first `COLDS` conds of which one edge was
/// counted 0 and the other `HOT` times or more, and an Assume that always fails on that edge; then it does what level 3
/// does. Level 3 inlines the first `INLINES` calls of other functions of at most `SHORT` labels, and propagates constants.
pub fn plan(
    alloc: Global,
    checked: &Checked,
    f: FunId,
    level: u8,
    snapshot: &Snapshot,
) -> Result<Passes, NoMemory>
    requires function { f.0 < length checked.now.functions }
    requires level { (1 ≤ level) × (level ≤ 3) }
    requires fits { FitsFunction checked.now f snapshot.now }
    ensures { IfOk result (λ passes. passes ≡ planned checked.now f level snapshot.now) }
{
    let code = checked.function(f).code.items();
    let mut passes = Passes::new(alloc);
    if level == 1 {
        add_first(&mut passes, code, snapshot)?;
    } else if level == 2 {
        add_second(&mut passes, checked, f, code, snapshot)?;
    } else {
        add_inlines(&mut passes, checked, f, code)?;
    }
    Ok(passes)
}

fn add_first(passes: &mut Passes, code: &[Line], snapshot: &Snapshot) -> Result<(), NoMemory>
    requires code { length code.now ≤ MAX_LABELS }
    requires params { length snapshot.now.params ≤ MAX_PARAMS }
    ensures { OnOk result (passes.new ≡ passes.old ++ first_plan code.now snapshot.now) }
{
    let guards = guards_in(passes.allocator(), snapshot.params.items())?;
    add_entry(passes, code.len() as u32, guards)?;
    Ok(())
}

fn add_second(
    passes: &mut Passes,
    checked: &Checked,
    f: FunId,
    code: &[Line],
    snapshot: &Snapshot,
) -> Result<(), NoMemory>
    requires code { length code.now ≤ MAX_LABELS }
    requires params { length snapshot.now.params ≤ MAX_PARAMS }
    ensures { OnOk result (passes.new ≡ passes.old ++ second_plan checked.now f code.now snapshot.now) }
{
    add_first(passes, code, snapshot)?;
    add_cold_passes(passes, code, snapshot)?;
    add_inlines(passes, checked, f, code)?;
    Ok(())
}

fn add_cold_passes(passes: &mut Passes, code: &[Line], snapshot: &Snapshot) -> Result<(), NoMemory>
    requires code { length code.now ≤ MAX_LABELS }
    requires params { length snapshot.now.params ≤ MAX_PARAMS }
    ensures { OnOk result (passes.new ≡ passes.old ++ delay_passes (length code.now) (guards_in snapshot.now.params) (colds_in snapshot.now.edges code.now)) }
{
    let alloc = passes.allocator();
    let guards = guards_in(alloc, snapshot.params.items())?;
    let colds = colds_in(alloc, snapshot.edges.items(), code)?;
    let entry = code.len() as u32;
    add_delays(passes, entry, first_cold(entry, &guards), colds.items())?;
    Ok(())
}

// An Anchor before the entry, the guards after it, and constant propagation.
fn add_entry(passes: &mut Passes, labels: u32, guards: Guards) -> Result<(), NoMemory>
    ensures { OnOk result (passes.new ≡ passes.old ++ entry_passes labels guards) }
{
    let mut places = Labels::new(passes.allocator());
    places.push(Label(0))?;
    passes.push(Pass::Anchors { places })?;
    add_assume(passes, Label(labels), guards)?;
    passes.push(Pass::Const)?;
    Ok(())
}

fn add_assume(passes: &mut Passes, anchor: Label, guards: Guards) -> Result<(), NoMemory>
    ensures { OnOk result (passes.new ≡ passes.old ++ assumes anchor.0 guards) }
{
    if !guards.items().is_empty() {
        passes.push(Pass::Assume { anchor, guards })?;
    }
    Ok(())
}

// The first label after the entry's Anchor and its Assume.
fn first_cold(labels: u32, guards: &Guards) -> u32
    requires { labels ≤ MAX_LABELS }
    ensures { result ≡ first_cold labels guards.now }
{
    if guards.items().is_empty() {
        labels + 1
    } else {
        labels + 2
    }
}
