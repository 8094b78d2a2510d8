//! A version of a function, by a list of passes.

ghost use Rattle.std.specs.Prelude.{◌≡◌, ◌<◌, [], IfOk, length};
ghost use Rattle.cj_inline.specs.Inlining.{called_at};
ghost use Rattle.cj_passes.specs.Pipeline.{or_own, callee_at, IsPipeline};
ghost use Rattle.cj_passes.specs.OnePass.{IsPassStep};

use crate::lowering::lower;
use crate::skips::{push_all, push_one};
use cj_anchor::insert_anchors;
use cj_assume::immediate;
use cj_delay::delayed;
use cj_draft::{Draft, Pass, Passes, Skips, Version};
use cj_inline::{called_at, inline};
use cj_ir::{Checked, FunId, Label, NoMemory};
use cj_sparse::fold;
use std::alloc::Global;

/// The version of a function that the passes make: they change its base body one after the other, and what they make is
/// lowered. The context is empty.
///
/// What is skipped is told in order, each with the number of its pass, from 0. A pass that is skipped leaves the draft as
/// it was; one of several labels skips those labels alone.
pub fn pipeline<'p>(
    alloc: Global,
    checked: &'p Checked,
    f: FunId,
    passes: &Passes,
) -> Result<(Version<'p>, Skips), NoMemory>
    requires inside { f.0 < length checked.now.functions }
    ensures program { IfOk result (λ made. made.0.program ≡ checked.now) }
    ensures context { IfOk result (λ made. made.0.context ≡ []) }
    ensures function { IfOk result (λ made. made.0.code.function ≡ f) }
    ensures made { IfOk result (λ made. IsPipeline checked.now f passes.now made.0.code made.1) }
{
    let mut draft = Draft::of_base(alloc, checked, f)?;
    let mut skips = Skips::new(alloc);
    for (number, pass) in passes.items().iter().enumerate() {
        draft = passed(draft, number, pass, &mut skips)?;
    }
    let version = lower(draft)?;
    Ok((version, skips))
}

/// The draft after the pass, which is number `number` of the list.
fn passed<'p>(
    draft: Draft<'p>,
    number: usize,
    pass: &Pass,
    skips: &mut Skips,
) -> Result<Draft<'p>, NoMemory>
    requires context { draft.context ≡ [] }
    ensures program { IfOk result (λ made. made.program ≡ draft.entry.program) }
    ensures context { IfOk result (λ made. made.context ≡ draft.entry.context) }
    ensures made { IfOk result (λ made. IsPassStep draft.entry.program draft.entry.code number pass.now made.code skips.old skips.new) }
{
    match pass {
        Pass::Anchors { places } => {
            let (made, skipped) = insert_anchors(draft, places)?;
            push_all(skips, number, &skipped)?;
            Ok(made)
        }
        Pass::Assume { anchor, guards } => {
            let (made, skipped) = immediate(draft, *anchor, guards)?;
            push_one(skips, number, skipped)?;
            Ok(made)
        }
        Pass::Delay { path, guards } => {
            let (made, skipped) = delayed(draft, path, guards)?;
            push_one(skips, number, skipped)?;
            Ok(made)
        }
        Pass::Const => {
            let made = fold(draft)?;
            push_one(skips, number, None)?;
            Ok(made)
        }
        Pass::Inline { call } => {
            let callee = callee_at(&draft, *call)?;
            let (made, skipped) = inline(draft, *call, &callee)?;
            push_one(skips, number, skipped)?;
            Ok(made)
        }
    }
}

/// The base body of the function that is called at a label; where none is called there, that of the draft's own.
#[tactic(auto, unfolding(crate::specs::Pipeline::callee_at))]
fn callee_at<'p>(draft: &Draft<'p>, label: Label) -> Result<Draft<'p>, NoMemory>
    ensures program { IfOk result (λ callee. callee.program ≡ draft.now.program) }
    ensures context { IfOk result (λ callee. callee.context ≡ []) }
    ensures code { IfOk result (λ callee. callee.code ≡ callee_at draft.now.program draft.now.code label) }
{
    let alloc = draft.code().places.allocator();
    let callee = Draft::of_base(alloc, draft.checked(), callee_of(draft, label))?;
    Ok(callee)
}

/// The function that is called at a label; where none is called there, the draft's own.
#[tactic(auto, unfolding(crate::specs::Pipeline::or_own))]
fn callee_of(draft: &Draft<'_>, label: Label) -> FunId
    ensures called { result ≡ or_own draft.now.code.function (called_at draft.now.code label) }
    ensures exists { result.0 < length draft.now.program.functions }
{
    match called_at(draft, label) {
        Ok(function) => function,
        Err(_) => draft.code().function,
    }
}
