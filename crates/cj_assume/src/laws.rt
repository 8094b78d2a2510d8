//! Laws of the passes. Their proofs are all that these functions have.

ghost use Rattle.std.specs.Prelude.{◌≡◌, None, List};
ghost use Rattle.cj_ir.specs.declared.language.Guard.{Guard};
ghost use Rattle.cj_ir.specs.declared.language.Label.{Label};
ghost use Rattle.cj_draft.specs.declared.code.Code.{Code};
ghost use Rattle.cj_assume.specs.ImmediateAssume.{assume_offence, IsAfter, HasGuardsNext};

/// A code has one code after an immediate Assume.
pub fn immediate_is_unique()
    ensures { (code : Code) (anchor : Label) (guards : List Guard) (one other : Code) →
        IsAfter code anchor guards one → IsAfter code anchor guards other → one ≡ other }
{}

/// Where no condition is against it, an Assume stands directly after the Anchor, and each of the guards is among its own.
pub fn guards_are_assumed()
    ensures { (code : Code) (anchor : Label) (guards : List Guard) (made : Code) →
        assume_offence code anchor guards ≡ None → IsAfter code anchor guards made → HasGuardsNext made anchor guards }
{}
