//! Laws of the pass. Their proofs are all that these functions have.

ghost use Rattle.std.specs.Prelude.{◌≡◌, Some, None};
ghost use Rattle.cj_ir.specs.declared.language.Label.{Label};
ghost use Rattle.cj_ir.specs.declared.language.Program.{Program};
ghost use Rattle.cj_draft.specs.declared.code.Code.{Code};
ghost use Rattle.cj_draft.specs.declared.passes.Skipped.TheVariants.{NotCall};
ghost use Rattle.cj_inline.specs.Inlining.{inline_offence, IsAfter};

/// A code has one code after a callee is inlined.
pub fn inlining_is_unique()
    ensures { (P : Program) (code : Code) (call : Label) (callee one other : Code) →
        IsAfter P code call callee one → IsAfter P code call callee other → one ≡ other }
{}

/// Where no condition is against it, the call is gone afterwards: nothing is inlined at its label again.
pub fn call_is_inlined_once()
    ensures { (P : Program) (code callee made again : Code) (call : Label) →
        inline_offence code call callee ≡ None → IsAfter P code call callee made →
        inline_offence made call again ≡ Some (NotCall call) }
{}
