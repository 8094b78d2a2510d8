//! Laws of the lowering and of the pipeline. Their proofs are all that these functions have.

ghost use Rattle.std.specs.Prelude.{◌≡◌, ℕ, List};
ghost use Rattle.cj_ir.specs.declared.language.FunId.{FunId};
ghost use Rattle.cj_ir.specs.declared.language.Program.{Program};
ghost use Rattle.cj_draft.specs.declared.code.Code.{Code};
ghost use Rattle.cj_draft.specs.declared.passes.Pass.{Pass};
ghost use Rattle.cj_draft.specs.declared.passes.Skipped.{Skipped};
ghost use Rattle.cj_passes.specs.Lowering.{IsLowered};
ghost use Rattle.cj_passes.specs.Pipeline.{IsPipeline};

use cj_anchor::laws::insertion_is_unique;
use cj_const::laws::folding_is_unique;
use cj_delay::laws::delayed_is_unique;

/// A code has one lowering.
pub fn lowering_is_unique()
    ensures { (code one other : Code) → IsLowered code one → IsLowered code other → one ≡ other }
{}

/// A list of passes makes one version of a function, and skips the same each time.
pub fn pipeline_is_unique()
    ensures { (P : Program) (f : FunId) (passes : List Pass) (one other : Code) (skips skips' : List (ℕ × Skipped)) →
        IsPipeline P f passes one skips → IsPipeline P f passes other skips' → (one ≡ other) × (skips ≡ skips') }
{
    insertion_is_unique();
    lowering_is_unique();
    delayed_is_unique();
    folding_is_unique();
}
