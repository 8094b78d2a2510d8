//! What a run asks, and what it tells.

ghost use Rattle.std.specs.Prelude.{◌≡◌, ◌≢◌, ◌<◌, List, [], ◌∷◌, ◌++◌, length, IfOk, OnErr, IsSome, Some};
ghost use Rattle.cj_ir.specs.WellFormed.{Takes};
ghost use Rattle.cj_ir.specs.declared.language.Program.{Program};
ghost use Rattle.cj_calls.specs.declared.report.Look.{Look};
ghost use Rattle.cj_machine.specs.Versions.{Codes};
ghost use Rattle.cj_machine.specs.Marks.{Mark, Entered, Branched, FailedIn, IsBranch};
ghost use Rattle.cj_machine.specs.CodeMaps.{SoundCodes, Grows};
ghost use Rattle.cj_engine.specs.Watching.{TellsAtMost};

use cj_draft::Version;
use cj_ir::{Edge, FunId, Label, NoMemory};

/// Whom a run asks which version of a function it enters, and whom it tells of its entries, branches and failed
/// Assumes.
///
/// A watch has one program, which never changes. Its code is a map from functions and offsets to versions that are
/// sound for the program; it keeps what it has. Its trail is the list of all looks: each `enter` appends one. What it
/// was told between two of its states is a relation of these states, for a list of marks; a watch that keeps none takes
/// the relation that always holds.
pub trait Watch {
    ghost program: { Self → Program };

    ghost codes: { Self → Codes };

    ghost trail: { Self → List Look };

    // from one state to another the watch was told exactly these marks
    ghost went: { Self → Self → List Mark → Type 0 };

    // what stays, whatever came of a call
    ghost stays: { Self → Self → Type 0 };

    // the watch is in order
    ghost ready: { Self → Type 0 };

    /// The offset of the version of the function that is entered with these arguments, or 0 for its base body. There
    /// are as many arguments as the function has parameters.
    ///
    /// After want of memory the trail and the marks are as before, or have the one entry more.
    fn enter(&mut self, f: FunId, args: &[i64]) -> Result<u64, NoMemory>
        requires ready { ready self.old }
        requires takes { Takes (program self.old).functions f (length args.now) }
        ensures looked { IfOk result (λ offset. trail self.new ≡ trail self.old ++ record { function = f; offset = offset } ∷ []) }
        ensures found { IfOk result (λ offset. offset ≢ 0 → IsSome (codes self.new f offset)) }
        ensures went { IfOk result (λ offset. went self.old self.new (Entered f args.now ∷ [])) }
        ensures no_memory { OnErr result (TellsAtMost (went self.old self.new) (trail self.old) (trail self.new) (Entered f args.now ∷ [])) }
        ensures grows { Grows (codes self.old) (codes self.new) }
        ensures same { program self.new ≡ program self.old }
        ensures stays { stays self.old self.new }
        ensures ready { ready self.new };

    /// The version of a function that the watch's code has at that offset.
    fn version(&self, f: FunId, offset: u64) -> &Version<'_>
        requires ready { ready self.now }
        requires key { IsSome (codes self.now f offset) }
        ensures code { codes self.now f offset ≡ Some result.now.code }
        ensures program { result.now.program ≡ program self.now };

    /// A `cond` of a base frame at that label of the function took the edge.
    fn branched(&mut self, f: FunId, label: Label, edge: Edge)
        requires ready { ready self.old }
        requires branch { IsBranch (program self.old) f label }
        ensures went { went self.old self.new (Branched f label edge ∷ []) }
        ensures trail { trail self.new ≡ trail self.old }
        ensures codes { codes self.new ≡ codes self.old }
        ensures same { program self.new ≡ program self.old }
        ensures stays { stays self.old self.new }
        ensures ready { ready self.new };

    /// An Assume in a version of the function failed.
    fn failed(&mut self, f: FunId)
        requires ready { ready self.old }
        requires inside { f.0 < length (program self.old).functions }
        ensures went { went self.old self.new (FailedIn f ∷ []) }
        ensures trail { trail self.new ≡ trail self.old }
        ensures codes { codes self.new ≡ codes self.old }
        ensures same { program self.new ≡ program self.old }
        ensures stays { stays self.old self.new }
        ensures ready { ready self.new };

    ghost sound: { (s : Self) → ready s → SoundCodes (program s) (codes s) };

    ghost went_nowhere: { (s : Self) → went s s [] };

    ghost went_on: { (a b c : Self) (ms ns : List Mark) → went a b ms → went b c ns → went a c (ms ++ ns) };

    ghost stays_same: { (s : Self) → stays s s };

    ghost stays_on: { (a b c : Self) → stays a b → stays b c → stays a c };
}
