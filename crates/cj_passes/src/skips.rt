//! What passes skip, with their numbers.

ghost use Rattle.std.specs.Prelude.{◌≡◌, ◌++◌, ◌∷◌, [], OnOk};
ghost use Rattle.cj_draft.specs.Skips.{told};
ghost use Rattle.cj_passes.specs.Pipeline.{listed, reasons, numbered};

use cj_draft::{Skipped, Skips, told};
use cj_ir::NoMemory;

/// Appends what a pass skipped, each with the pass's number.
pub(crate) fn push_all(skips: &mut Skips, number: usize, skipped: &Skips) -> Result<(), NoMemory>
    ensures { OnOk result (skips.new ≡ skips.old ++ numbered number (reasons skipped.now)) }
{
    for skip in skipped.items() {
        push_reason(skips, number, skip)?;
    }
    Ok(())
}

/// Appends a reason, with the pass's number in the place of its own.
fn push_reason(skips: &mut Skips, number: usize, skip: &(u32, Skipped)) -> Result<(), NoMemory>
    ensures { OnOk result (skips.new ≡ skips.old ++ (told number, skip.now.1) ∷ []) }
{
    skips.push((told(number), skip.1))
}

/// Appends that a pass was skipped, if it was, with the pass's number.
#[tactic(auto, unfolding(crate::specs::Pipeline::listed, crate::specs::Pipeline::numbered))]
pub(crate) fn push_one(
    skips: &mut Skips,
    number: usize,
    skipped: Option<Skipped>,
) -> Result<(), NoMemory>
    ensures { OnOk result (skips.new ≡ skips.old ++ numbered number (listed skipped)) }
{
    if let Some(reason) = skipped {
        skips.push((told(number), reason))?;
    }
    Ok(())
}
