//! The law of Anchors before labels. Its proof is all that this function has.

ghost use Rattle.std.specs.Prelude.{◌≡◌, ℕ, List};
ghost use Rattle.cj_ir.specs.declared.language.Label.{Label};
ghost use Rattle.cj_draft.specs.declared.code.Code.{Code};
ghost use Rattle.cj_draft.specs.declared.passes.Skipped.{Skipped};
ghost use Rattle.cj_anchor.specs.AnchorInsertion.{AreAnchored};

/// Anchors before the labels of a list make one code, with one list of skips.
pub fn insertion_is_unique()
    ensures { (index : ℕ) (code : Code) (places : List Label) (one other : Code) (skips skips' : List (ℕ × Skipped)) →
        AreAnchored index code places one skips → AreAnchored index code places other skips' → (one ≡ other) × (skips ≡ skips') }
{}
