//! Edges that were never taken.

ghost use Rattle.std.specs.Prelude.{◌≡◌, ◌++◌, ◌+◌, ◌∷◌, [], ◌≤◌, ◌<◌, length, map, take, IfOk, OnOk, slice_get};
ghost use Rattle.cj_plan.specs.Plan.{each_from, targets_of, is_cold, cold_edge, cold_by, colds_in, led_from, led, delay_of, delays};
ghost use Rattle.cj_ir.specs.declared.limits.TheConstants.{MAX_LABELS};

use crate::limits::{COLDS, HOT};
use cj_draft::{Pass, Passes};
use cj_ir::{Guard, Guards, Instr, Label, Labels, Line, NoMemory, Sequence};
use cj_profile::EdgeNote;
use std::alloc::Global;

/// The label of a `cond`, and the target of its edge that was never taken.
#[derive(Clone, Copy, Debug, PartialEq, Eq)]
pub struct Cold {
    pub label: Label,
    pub target: Label,
}

/// Where the edges of a `cond` go.
#[derive(Clone, Copy, Debug, PartialEq, Eq)]
pub struct Targets {
    pub then_to: Label,
    pub else_to: Label,
}

pub(crate) type Colds = Sequence<Cold>;

/// The cold edges of a function's code, by what was counted.
pub(crate) fn colds_in(alloc: Global, notes: &[EdgeNote], code: &[Line]) -> Result<Colds, NoMemory>
    requires { length code.now ≤ MAX_LABELS }
    ensures { IfOk result (λ colds. colds ≡ colds_in notes.now code.now) }
{
    let mut colds = Colds::new(alloc);
    for (label, line) in code.iter().enumerate() {
        let note = note_at(notes, label);
        add_cold(
            &mut colds,
            Label(label as u32),
            note,
            targets_of(&line.instr),
        )?;
    }
    Ok(colds)
}

fn note_at(notes: &[EdgeNote], label: usize) -> Option<EdgeNote>
    ensures { result ≡ slice_get notes.now label }
{
    notes.get(label).copied()
}

fn targets_of(instr: &Instr) -> Option<Targets>
    ensures { result ≡ targets_of instr.now }
{
    match instr {
        Instr::Cond {
            then_to,
            else_to,
            ..
        } => Some(Targets {
            then_to: *then_to,
            else_to: *else_to,
        }),
        Instr::Nop { .. }
        | Instr::Op { .. }
        | Instr::Call { .. }
        | Instr::Return { .. }
        | Instr::Print { .. }
        | Instr::Load { .. }
        | Instr::Store { .. }
        | Instr::Fail { .. } => None,
    }
}

// Takes a label's cold edge in, if it has one, and there is room.
fn add_cold(
    colds: &mut Colds,
    label: Label,
    note: Option<EdgeNote>,
    targets: Option<Targets>,
) -> Result<(), NoMemory>
    requires { length colds.old ≤ COLDS }
    ensures { OnOk result (colds.new ≡ take COLDS (colds.old ++ cold_by label.0 note targets)) }
{
    let Some(note) = note else {
        return Ok(());
    };
    let Some(targets) = targets else {
        return Ok(());
    };
    let then_to = targets.then_to;
    let else_to = targets.else_to;
    add_edge(colds, label, then_to, note.then_count, note.else_count)?;
    add_edge(colds, label, else_to, note.else_count, note.then_count)?;
    Ok(())
}

fn add_edge(
    colds: &mut Colds,
    label: Label,
    target: Label,
    count: u64,
    other: u64,
) -> Result<(), NoMemory>
    requires { length colds.old ≤ COLDS }
    ensures edge { OnOk result (colds.new ≡ take COLDS (colds.old ++ cold_edge label.0 target count other)) }
    ensures few { OnOk result (length colds.new ≤ COLDS) }
{
    if is_cold(count, other) {
        add_item(colds, Cold { label, target })?;
    }
    Ok(())
}

fn is_cold(count: u64, other: u64) -> bool
    ensures { result ≡ is_cold count other }
{
    count == 0 && other >= HOT
}

fn add_item(colds: &mut Colds, cold: Cold) -> Result<(), NoMemory>
    requires { length colds.old ≤ COLDS }
    ensures item { OnOk result (colds.new ≡ take COLDS (colds.old ++ cold ∷ [])) }
    ensures few { OnOk result (length colds.new ≤ COLDS) }
{
    if colds.items().len() < COLDS {
        colds.push(cold)?;
    }
    Ok(())
}

/// Appends Anchors before the cold labels, of which the first is the label `first`, and an Assume that always fails on
/// each cold edge. The entry's Anchor is the label `entry`.
pub(crate) fn add_delays(
    passes: &mut Passes,
    entry: u32,
    first: u32,
    colds: &[Cold],
) -> Result<(), NoMemory>
    requires entry { entry ≤ MAX_LABELS }
    requires first { first ≤ 258 }
    requires few { length colds.now ≤ COLDS }
    ensures { OnOk result (passes.new ≡ passes.old ++ delays entry first colds.now) }
{
    if colds.is_empty() {
        return Ok(());
    }
    let places = labels_of(passes.allocator(), colds)?;
    passes.push(Pass::Anchors { places })?;
    add_each_delay(passes, entry, first, colds)?;
    Ok(())
}

fn labels_of(alloc: Global, colds: &[Cold]) -> Result<Labels, NoMemory>
    ensures { IfOk result (λ labels. labels ≡ map (λ x. x.label) colds.now) }
{
    let mut labels = Labels::new(alloc);
    for cold in colds {
        labels.push(cold.label)?;
    }
    Ok(labels)
}

fn add_each_delay(
    passes: &mut Passes,
    entry: u32,
    first: u32,
    colds: &[Cold],
) -> Result<(), NoMemory>
    requires first { first ≤ 258 }
    requires few { length colds.now ≤ COLDS }
    ensures { OnOk result (passes.new ≡ passes.old ++ each_from (delay_of entry first colds.now) 0 colds.now) }
{
    for (number, &cold) in colds.iter().enumerate() {
        add_delay(passes, entry, first, colds, number as u32, cold)?;
    }
    Ok(())
}

fn add_delay(
    passes: &mut Passes,
    entry: u32,
    first: u32,
    colds: &[Cold],
    number: u32,
    cold: Cold,
) -> Result<(), NoMemory>
    requires first { first ≤ 258 }
    requires number { number < length colds.now }
    requires few { length colds.now ≤ COLDS }
    ensures { OnOk result (passes.new ≡ passes.old ++ delay_of entry first colds.now number cold) }
{
    let alloc = passes.allocator();
    let mut path = Labels::new(alloc);
    path.push(Label(first + number))?;
    path.push(cold.label)?;
    path.push(led(entry, first, colds, cold.target))?;
    let mut guards = Guards::new(alloc);
    guards.push(Guard::Never)?;
    passes.push(Pass::Delay { path, guards })?;
    Ok(())
}

// Where an edge to a label leads.
fn led(entry: u32, first: u32, colds: &[Cold], to: Label) -> Label
    requires first { first ≤ 258 }
    requires few { length colds.now ≤ COLDS }
    ensures { result ≡ led entry first colds.now to }
{
    if to.0 == 0 {
        return Label(entry);
    }
    led_from(first, colds, to)
}

fn led_from(first: u32, colds: &[Cold], to: Label) -> Label
    requires first { first ≤ 258 }
    requires few { length colds.now ≤ COLDS }
    ensures { result ≡ led_from first colds.now to }
{
    for (number, cold) in colds.iter().enumerate() {
        if cold.label.0 == to.0 {
            return Label(first + number as u32);
        }
    }
    to
}
