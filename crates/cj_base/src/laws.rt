//! Laws of the base machine and its runs. The bodies do nothing.

ghost use Rattle.std.specs.Prelude.{◌≡◌, ◌≢◌, ℕ, ◌+◌, ◌++◌, List, length, ℤ};
ghost use Rattle.cj_ir.specs.WellFormed.{IsWellFormed, Takes};
ghost use Rattle.cj_ir.specs.declared.language.Program.{Program};
ghost use Rattle.cj_base.specs.declared.machine.End.{End};
ghost use Rattle.cj_base.specs.Machine.{Config, Goes, Stuck, turn_of};
ghost use Rattle.cj_base.specs.Fits.{Fits};
ghost use Rattle.cj_base.specs.Run.{Begun, Going, Over, Lost, base_run, HasPrinted};

/// A configuration that fits a well-formed program has its turn, and where that goes on the configuration fits again.
/// A turn is a function of the program and the configuration: it has one outcome.
pub fn turns_keep_fitting()
    ensures has_turn { (P : Program) (c : Config) → IsWellFormed P → Fits P c → turn_of P c ≢ Stuck }
    ensures fits_again { (P : Program) (c next : Config) (printed : List ℤ) →
        IsWellFormed P → Fits P c → turn_of P c ≡ Goes printed next → Fits P next }
{}

/// The run of a call that gives its function's arguments is never lost, and each of its configurations fits.
pub fn run_is_never_lost()
    ensures never_lost { (P : Program) (call : Begun) (n : ℕ) →
        IsWellFormed P → Takes P.functions call.function (length call.args) → base_run P call n ≢ Lost }
    ensures fits { (P : Program) (call : Begun) (n : ℕ) (printed : List ℤ) (c : Config) →
        IsWellFormed P → Takes P.functions call.function (length call.args) →
        base_run P call n ≡ Going printed c → Fits P c }
{}

/// A run that has ended stays as it ended.
pub fn ended_run_stays()
    ensures { (P : Program) (call : Begun) (n k turns : ℕ) (printed : List ℤ) (end : End) →
        base_run P call n ≡ Over printed end turns → base_run P call (n + k) ≡ Over printed end turns }
{}

/// A run has one end, with one list of prints, at one turn.
pub fn end_is_unique()
    ensures { (P : Program) (call : Begun) (n m turns others : ℕ) (printed prints : List ℤ) (end other : End) →
        base_run P call n ≡ Over printed end turns → base_run P call m ≡ Over prints other others →
        (printed ≡ prints) × (end ≡ other) × (turns ≡ others) }
{}

/// Prints only grow: what was printed after n turns stands at the beginning of what was printed after more.
pub fn prints_only_grow()
    ensures { (P : Program) (call : Begun) (n k : ℕ) (before after : List ℤ) →
        HasPrinted (base_run P call n) before → HasPrinted (base_run P call (n + k)) after →
        (more : List ℤ) × (after ≡ before ++ more) }
{}
