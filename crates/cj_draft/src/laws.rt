//! Laws of soundness. Their proofs are all that these functions have.

ghost use Rattle.std.specs.Prelude.{◌≡◌, ◌<◌, ◌≤◌, ℤ, List, Some, length};
ghost use Rattle.cj_ir.specs.declared.language.FunId.{FunId};
ghost use Rattle.cj_ir.specs.declared.language.Program.{Program};
ghost use Rattle.cj_ir.specs.WellFormed.{IsWellFormed, Takes};
ghost use Rattle.cj_base.specs.Machine.{entry_regs};
ghost use Rattle.cj_draft.specs.declared.facts.Fact.{Fact};
ghost use Rattle.cj_draft.specs.declared.code.Place.{Place};
ghost use Rattle.cj_draft.specs.declared.code.Code.{Code};
ghost use Rattle.cj_draft.specs.WellNamed.{ArePairsFine};
ghost use Rattle.cj_draft.specs.Arrives.{place_at, Satisfies, Allows};
ghost use Rattle.cj_draft.specs.Sound.{Sound, AreAmong};
ghost use Rattle.cj_draft.specs.BaseBody.{base_code};

use crate::instructions::Pairs;

/// The base body of a function is sound, in every context. So there are sound codes.
pub fn base_body_is_sound()
    ensures { (P : Program) (context : List Fact) (f : FunId) →
        IsWellFormed P → f.0 < length P.functions → Sound P context f (base_code P f) }
{}

/// A code is not sound whose entry's facts are false of some arguments that satisfy the context.
pub fn false_entry_is_not_sound()
    ensures { (P : Program) (context : List Fact) (code : Code) (place : Place) (args : List ℤ) →
        Takes P.functions code.function (length args) → Satisfies context args →
        place_at code code.entry ≡ Some place → ¬ Allows place.facts (entry_regs code.regs args) →
        ¬ Sound P context code.function code }
{}

/// A code is not sound whose entry has a fact that is none of the context.
pub fn foreign_entry_is_not_sound()
    ensures { (P : Program) (context : List Fact) (code : Code) (place : Place) →
        place_at code code.entry ≡ Some place → ¬ AreAmong context place.facts → ¬ Sound P context code.function code }
{}

/// The assignments of a move, which has different destinations, are at most as many as there are registers.
#[tactic(auto, using(crate::proofs::FewPairs::few_pairs))]
pub fn assignments_are_few(pairs: &Pairs, registers: u32)
    requires { ArePairsFine registers pairs.now }
    ensures { length pairs.now ≤ registers }
{}
