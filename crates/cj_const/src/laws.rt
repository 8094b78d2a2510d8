//! Laws of constant facts. Their proofs are all that these functions have.

ghost use Rattle.std.specs.Prelude.{◌≡◌, List};
ghost use Rattle.cj_draft.specs.declared.code.Code.{Code};
ghost use Rattle.cj_draft.specs.declared.facts.Fact.{Fact};
ghost use Rattle.cj_draft.specs.declared.facts.Facts.{Facts};
ghost use Rattle.cj_const.specs.Flow.{IsStrongest};
ghost use Rattle.cj_const.specs.Folding.{IsFolded};

/// A code has one strongest table in a context.
pub fn strongest_is_unique()
    ensures { (context : List Fact) (code : Code) (one other : List Facts) →
        IsStrongest context code one → IsStrongest context code other → one ≡ other }
{}

/// A code has one code that is folded over its strongest table in a context.
pub fn folding_is_unique()
    ensures { (context : List Fact) (code one other : Code) →
        IsFolded context code one → IsFolded context code other → one ≡ other }
{}
