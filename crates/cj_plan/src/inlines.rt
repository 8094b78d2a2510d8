//! Calls of other functions, which are inlined where the called one is short.

ghost use Rattle.std.specs.Prelude.{◌≡◌, ◌++◌, ◌∷◌, [], ◌≤◌, ◌<◌, length, map, take, IfOk, OnOk};
ghost use Rattle.cj_ir.specs.Program.{label_count};
ghost use Rattle.cj_draft.specs.declared.passes.Pass.TheVariants.{Inline};
ghost use Rattle.cj_plan.specs.Plan.{callee_of, is_inlined, inline_by, inlined_in, inline_passes};
ghost use Rattle.cj_ir.specs.declared.limits.TheConstants.{MAX_LABELS};

use crate::limits::{INLINES, SHORT};
use cj_draft::{Pass, Passes};
use cj_ir::{Checked, FunId, Instr, Label, Labels, Line, NoMemory};
use std::alloc::Global;

/// Appends the inlining of the first calls of other functions that are short, and constant propagation.
pub(crate) fn add_inlines(
    passes: &mut Passes,
    checked: &Checked,
    f: FunId,
    code: &[Line],
) -> Result<(), NoMemory>
    requires { length code.now ≤ MAX_LABELS }
    ensures { OnOk result (passes.new ≡ passes.old ++ inline_passes checked.now f code.now) }
{
    let calls = inlined_in(passes.allocator(), checked, f, code)?;
    add_calls(passes, calls.items())?;
    passes.push(Pass::Const)?;
    Ok(())
}

fn add_calls(passes: &mut Passes, calls: &[Label]) -> Result<(), NoMemory>
    ensures { OnOk result (passes.new ≡ passes.old ++ map (λ call. Inline call) calls.now) }
{
    for &call in calls {
        passes.push(Pass::Inline { call })?;
    }
    Ok(())
}

fn inlined_in(alloc: Global, checked: &Checked, f: FunId, code: &[Line]) -> Result<Labels, NoMemory>
    requires { length code.now ≤ MAX_LABELS }
    ensures { IfOk result (λ calls. calls ≡ inlined_in checked.now f code.now) }
{
    let mut calls = Labels::new(alloc);
    for (label, line) in code.iter().enumerate() {
        add_call(
            &mut calls,
            checked,
            f,
            Label(label as u32),
            callee_of(&line.instr),
        )?;
    }
    Ok(calls)
}

// Takes the label in where the called function is to be inlined, and there is room.
fn add_call(
    calls: &mut Labels,
    checked: &Checked,
    f: FunId,
    label: Label,
    callee: Option<FunId>,
) -> Result<(), NoMemory>
    requires { length calls.old ≤ INLINES }
    ensures { OnOk result (calls.new ≡ take INLINES (calls.old ++ inline_by checked.now f label.0 callee)) }
{
    let Some(callee) = callee else {
        return Ok(());
    };
    if is_inlined(checked, f, callee) {
        add_label(calls, label)?;
    }
    Ok(())
}

fn add_label(calls: &mut Labels, label: Label) -> Result<(), NoMemory>
    requires { length calls.old ≤ INLINES }
    ensures { OnOk result (calls.new ≡ take INLINES (calls.old ++ label ∷ [])) }
{
    if calls.items().len() < INLINES {
        calls.push(label)?;
    }
    Ok(())
}

fn is_inlined(checked: &Checked, f: FunId, callee: FunId) -> bool
    ensures { result ≡ is_inlined checked.now f callee }
{
    callee.0 != f.0 && label_count(checked, callee) <= SHORT
}

fn callee_of(instr: &Instr) -> Option<FunId>
    ensures { result ≡ callee_of instr.now }
{
    match instr {
        Instr::Call { function, .. } => Some(*function),
        Instr::Nop { .. }
        | Instr::Op { .. }
        | Instr::Cond { .. }
        | Instr::Return { .. }
        | Instr::Print { .. }
        | Instr::Load { .. }
        | Instr::Store { .. }
        | Instr::Fail { .. } => None,
    }
}

fn label_count(checked: &Checked, f: FunId) -> usize
    ensures { result ≡ label_count checked.now f }
{
    match checked.program().functions.items().get(f.0 as usize) {
        None => 0,
        Some(function) => function.code.items().len(),
    }
}
