//! Laws of lookups, of versions read whole, and of the steps of a call. The bodies do nothing.

ghost use Rattle.std.specs.Prelude.{◌≡◌, ◌≢◌, ℕ, ◌+◌, ◌*◌, ◌≤◌, List, [], ◌∷◌, ◌++◌, map, length, Some, All, ℤ};
ghost use Rattle.std.specs.List.{AllZip};
ghost use Rattle.cj_ir.specs.WellFormed.{IsWellFormed, Takes};
ghost use Rattle.cj_ir.specs.declared.language.FunId.{FunId};
ghost use Rattle.cj_ir.specs.declared.language.Program.{Program};
ghost use Rattle.cj_base.specs.declared.machine.End.{End};
ghost use Rattle.cj_base.specs.Run.{Begun, base_run, Over};
ghost use Rattle.cj_draft.specs.declared.code.Code.{Code};
ghost use Rattle.cj_calls.specs.declared.report.Look.{Look};
ghost use Rattle.cj_calls.specs.declared.report.Report.{Report};
ghost use Rattle.cj_machine.specs.Versions.{Codes};
ghost use Rattle.cj_machine.specs.VersionRuns.{version_report};
ghost use Rattle.cj_machine.specs.Marks.{Mark, Entered, FailedIn};
ghost use Rattle.cj_profile.specs.declared.view.Read.{Read};
ghost use Rattle.cj_profile.specs.declared.layout.Word.TheVariants as word;
ghost use Rattle.cj_profile.specs.Reads.{add_one, raise, EnteredPart};
ghost use Rattle.cj_publish.specs.declared.view.View.{View};
ghost use Rattle.cj_publish.specs.Reliable.{IsReliable};
ghost use Rattle.cj_publish.specs.Fetched.{main_of, HasVersion};
ghost use Rattle.cj_parts.specs.Parts.{InParts, Among, MarkPart, Counts};
ghost use Rattle.cj_parts.specs.Known.{known_codes};
ghost use Rattle.cj_parts.specs.Looks.{looked, NeverFall, IsAbove, IsSeen, FoundIn};
ghost use Rattle.cj_parts.specs.Calls.{IsV, Stands, CallPart};
ghost use Rattle.cj_parts.specs.Runs.{Ran};

use cj_machine::laws::reports_have_the_headline;

/// The map of a seat has a version that the seat has read whole.
pub fn version_read_whole_is_known()
    ensures { (v : View) (f : FunId) (offset : ℕ) (code : Code) → IsReliable v →
        HasVersion v (main_of f) offset code → known_codes v f offset ≡ Some code }
{}

/// And it has no other.
pub fn known_version_is_read_whole()
    ensures { (v : View) (f : FunId) (offset : ℕ) (code : Code) →
        known_codes v f offset ≡ Some code → HasVersion v (main_of f) offset code }
{}

/// Each look of a seat found nothing, or a version that the seat has seen, and no look an older one than the looks before it.
pub fn looks_find_what_is_there()
    ensures { (v : View) (looks : List Look) → IsReliable v → v.lookups ≡ map looked looks →
        All (FoundIn v) looks × NeverFall looks }
{}

/// What a call looks up is no older than all that its seat had seen before the call.
pub fn call_looks_above_what_was_seen()
    ensures { (P : Program) (call : Begun) (r : Report) (v w : View) (old new : List Read) (floor : List Look) →
        Ran P call r v w old new → All (IsSeen v) floor → All (IsAbove floor) r.looks }
{}

/// Over two calls no look of a seat falls.
pub fn calls_look_on()
    ensures { (P : Program) (call next : Begun) (r s : Report) (u v w : View) (old mid new : List Read) (before : List Look) →
        Ran P call r u v old mid → Ran P next s v w mid new → IsReliable w → u.lookups ≡ map looked before →
        NeverFall ((before ++ r.looks) ++ s.looks) }
{}

/// The steps of two calls are the part of the one and then that of the other, over what their seat has read whole in the end.
pub fn calls_make_parts()
    ensures { (P : Program) (call next : Begun) (r s : Report) (u v w : View) (old mid new : List Read) →
        Ran P call r u v old mid → Ran P next s v w mid new → IsReliable w →
        (one : List Read) × (two : List Read) × CallPart P (known_codes w) call r one × CallPart P (known_codes w) next s two
        × (new ≡ old ++ (one ++ two)) }
{}

/// Among the steps of a run are those that count its marks, each on its own word, in the order of the marks.
pub fn each_mark_is_counted()
    ensures { (marks : List Mark) (rs : List Read) → InParts MarkPart marks rs →
        (counts : List Read) × AllZip Counts marks counts × Among counts rs }
{}

/// Items that stand in a list, in order, and are as many as it has, are the list.
pub fn all_that_stand_are_the_list()
    ensures { (xs ys : List Read) → Among xs ys → length ys ≤ length xs → xs ≡ ys }
{}

/// The 8th entry of a function asks for level 1, the 64th for level 2, and no other asks.
pub fn entries_ask_for_levels()
    ensures { (f : FunId) (args : List ℤ) (rs : List Read) → MarkPart (Entered f args) rs →
        (found : ℕ) × (counts : List Read) × EnteredPart f args found counts
        × (found + 1 ≡ 8 → (asked : ℕ) × (rs ≡ counts ++ raise (word.Asked f) asked 1 ∷ []))
        × (found + 1 ≡ 64 → (asked : ℕ) × (rs ≡ counts ++ raise (word.Asked f) asked 2 ∷ []))
        × (found + 1 ≢ 8 → found + 1 ≢ 64 → rs ≡ counts) }
{}

/// The third failure in a function asks for level 3, and no other asks.
pub fn failures_ask_for_a_level()
    ensures { (f : FunId) (rs : List Read) → MarkPart (FailedIn f) rs →
        (found : ℕ)
        × (found + 1 ≡ 3 → (asked : ℕ) × (rs ≡ add_one (word.Failures f) found ∷ raise (word.Asked f) asked 3 ∷ []))
        × (found + 1 ≢ 3 → rs ≡ add_one (word.Failures f) found ∷ []) }
{}

/// A report that a versioned run gives over any looks is V's, since it tells these looks.
pub fn reports_of_runs_are_v()
    ensures { (P : Program) (codes : Codes) (looks : List Look) (call : Begun) (r : Report) →
        version_report P codes looks call ≡ Some r → IsV P codes call r }
{}

/// Whatever versions a seat has read whole, V's report over them has the headline.
pub fn versions_read_whole_keep_the_headline()
    ensures { (P : Program) (v : View) (call : Begun) (r : Report) →
        IsReliable v → v.key.program ≡ P → IsWellFormed P → Takes P.functions call.function (length call.args) →
        IsV P (known_codes v) call r → Stands P call r }
{
    reports_have_the_headline();
}

/// Two reports of a call that have the headline are alike, where the limit is large enough for the base run.
pub fn reports_that_stand_are_alike()
    ensures { (P : Program) (call : Begun) (r s : Report) (n : ℕ) (printed : List ℤ) (by : End) →
        Stands P call r → Stands P call s → base_run P call n ≡ Over printed by n → 45 * (n + 1) ≤ call.limit →
        (r.printed ≡ s.printed) × (r.end ≡ s.end) }
{}
