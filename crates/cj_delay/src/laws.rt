//! Laws of the pass. Their proofs are all that these functions have.

ghost use Rattle.std.specs.Prelude.{◌≡◌, List};
ghost use Rattle.cj_ir.specs.declared.language.Guard.{Guard};
ghost use Rattle.cj_ir.specs.declared.language.Label.{Label};
ghost use Rattle.cj_ir.specs.declared.language.Program.{Program};
ghost use Rattle.cj_draft.specs.declared.code.Code.{Code};
ghost use Rattle.cj_delay.specs.DelayedAssume.{IsAfterDelay};

/// A code has one code after a delayed Assume.
pub fn delayed_is_unique()
    ensures { (P : Program) (code : Code) (path : List Label) (guards : List Guard) (one other : Code) →
        IsAfterDelay P code path guards one → IsAfterDelay P code path guards other → one ≡ other }
{}
