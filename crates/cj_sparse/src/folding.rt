//! A draft folded over its strongest facts.

ghost use Rattle.std.specs.Prelude.{◌≡◌, IfOk};
ghost use Rattle.cj_const.specs.Folding.{IsFolded};

use crate::search::strongest;
use cj_const::fold_over;
use cj_draft::Draft;
use cj_ir::NoMemory;

/// The draft folded over its strongest facts, as the fold of dense constant propagation does it. The program and the
/// context stay.
pub fn fold<'p>(draft: Draft<'p>) -> Result<Draft<'p>, NoMemory>
    ensures program { IfOk result (λ made. made.program ≡ draft.entry.program) }
    ensures context { IfOk result (λ made. made.context ≡ draft.entry.context) }
    ensures code { IfOk result (λ made. IsFolded draft.entry.context draft.entry.code made.code) }
{
    let alloc = draft.code().places.allocator();
    let table = strongest(alloc, &draft)?;
    let made = fold_over(draft, table.items())?;
    Ok(made)
}
