//! Laws of setups, records and stores. The bodies do nothing.

ghost use Rattle.std.specs.Prelude.{◌≡◌, ℕ, ◌≤◌, true, List, [], ◌∷◌, ◌++◌, map, length, replicate, Option, All, ℤ};
ghost use Rattle.cj_ir.specs.declared.language.FunId.{FunId};
ghost use Rattle.cj_ir.specs.declared.language.Label.{Label};
ghost use Rattle.cj_ir.specs.declared.language.Edge.{Edge};
ghost use Rattle.cj_ir.specs.declared.language.Guard.TheVariants.{Is};
ghost use Rattle.cj_ir.specs.declared.language.Program.{Program};
ghost use Rattle.cj_ir.specs.declared.script.Setup.{Setup};
ghost use Rattle.cj_ir.specs.declared.script.Setup.TheVariants.{Guess, Cold};
ghost use Rattle.cj_ir.specs.Values.{value_word};
ghost use Rattle.cj_base.specs.Run.{Begun};
ghost use Rattle.cj_draft.specs.declared.code.Code.{Code};
ghost use Rattle.cj_draft.specs.declared.passes.Skipped.{Skipped};
ghost use Rattle.cj_calls.specs.declared.report.Look.{Look};
ghost use Rattle.cj_calls.specs.declared.report.Report.{Report};
ghost use Rattle.cj_machine.specs.Versions.{Codes};
ghost use Rattle.cj_profile.specs.declared.view.Read.{Read};
ghost use Rattle.cj_profile.specs.declared.layout.Word.TheVariants as word;
ghost use Rattle.cj_profile.specs.declared.snapshot.Snapshot.{Snapshot};
ghost use Rattle.cj_profile.specs.Reads.{load, add_one};
ghost use Rattle.cj_profile.specs.Words.{number, other_edge};
ghost use Rattle.cj_profile.specs.Starts.{left_in};
ghost use Rattle.cj_profile.specs.Seats as counts;
ghost use Rattle.cj_plan.specs.Plan.{guard_of, is_cold};
ghost use Rattle.cj_publish.specs.Seats.{view_of};
ghost use Rattle.cj_parts.specs.Looks.{looked, looks_of, NeverFall, IsAbove, IsNewest};
ghost use Rattle.cj_notes.specs.declared.notes.WorkNote.{WorkNote};
ghost use Rattle.cj_notes.specs.declared.notes.WorkNote.TheVariants.{Published};
ghost use Rattle.cj_records.specs.declared.store.Store.{Store};
ghost use Rattle.cj_records.specs.Notes.{published_by, IsKnown};
ghost use Rattle.cj_records.specs.Setups.{SetupPart};
ghost use Rattle.cj_records.specs.Records.{Caller, Worker, Done, RoleRecord};
ghost use Rattle.cj_records.specs.Versions.{IsWholeStore, Round, LooksNewest, RolesStand};

/// A `guess` leaves the value in its word, and as many agreements as a plan asks for, so that it is guarded.
pub fn guess_is_guarded()
    ensures { (f : FunId) (param : ℕ) (value : ℤ) (rs : List Read) (m n : ℕ) → SetupPart (Guess f param value) rs →
        (left_in (number (word.Last f param)) m rs ≡ value_word value)
        × (guard_of param (record { last = value; agreed = left_in (number (word.Agreed f param)) n rs }) ≡ Is (record { 0 = param }) value ∷ []) }
{}

/// A `cold` leaves such counts of its label's edges that a plan takes that edge for cold.
pub fn cold_is_heeded()
    ensures { (f : FunId) (label : Label) (edge : Edge) (rs : List Read) (m n : ℕ) → SetupPart (Cold f label edge) rs →
        is_cold (left_in (number (word.Way f label edge)) m rs) (left_in (number (word.Way f label (other_edge edge))) n rs) ≡ true }
{}

/// On one thread a call finds the newest version that any work before it has published, or none where there is none.
pub fn looks_find_the_newest_that_was_published()
    ensures { (floor : List Look) (before : List Round) (r : Round) (after : List Round) → LooksNewest floor (before ++ r ∷ after) →
        All (IsNewest (floor ++ published_by (map (λ (x : Round). x.note) before))) r.report.looks }
{}

/// The lookups of the seats that were joined are the looks of the reports, caller by caller. Workers have looked nothing up.
pub fn joined_lookups_are_the_looks_of_reports()
    ensures { (P : Program) (size workers : ℕ) (setups : List Setup) (groups : List (List Begun)) (answers : List (List Report)) (work : List WorkNote) (s : Store) →
        RolesStand P size workers setups groups answers work s →
        (view_of s.code_seat).joined ≡ map (λ (rs : List Report). map looked (looks_of rs)) (answers ++ replicate workers []) }
{}

/// The looks of a caller's reports never fall, and are above the floor that it was given.
pub fn looks_of_a_caller_never_fall()
    ensures { (P : Program) (codes : Codes) (calls : List Begun) (floor : List Look) (d : Done) → RoleRecord P codes (Caller calls floor) d →
        All (IsAbove floor) (looks_of d.reports) × NeverFall (looks_of d.reports) }
{}

/// A worker ends with a load that has found that all callers have finished.
pub fn worker_ends_behind_all_callers()
    ensures { (P : Program) (codes : Codes) (callers : ℕ) (d : Done) → RoleRecord P codes (Worker callers) d →
        (before : List Read) × (last : ℕ) × (callers ≤ last) × (d.reads ≡ before ++ load word.Finished last ∷ []) }
{}

/// The last step of a caller tells that it has finished.
pub fn caller_tells_that_it_has_finished()
    ensures { (P : Program) (codes : Codes) (calls : List Begun) (floor : List Look) (d : Done) → RoleRecord P codes (Caller calls floor) d →
        (before : List Read) × (found : ℕ) × (d.reads ≡ before ++ add_one word.Finished found ∷ []) }
{}

/// Where a note published, the map has the code of the note.
pub fn published_code_is_known()
    ensures { (codes : Codes) (f : FunId) (level offset : ℕ) (s : Snapshot) (skipped : List (ℕ × Skipped)) (made : Option Code) →
        IsKnown codes (record { note = Published f level offset s skipped; code = made }) → codes f offset ≡ made }
{}

/// Each seat that was split off those of a store was joined into them again.
pub fn no_seat_is_left_out()
    ensures { (n size : ℕ) (P : Program) (s : Store) → IsWholeStore n size P s →
        (length (view_of s.code_seat).joined ≡ s.code_seat.splits) × (length (counts.joined_of s.profile_seat) ≡ s.profile_seat.splits) }
{}
