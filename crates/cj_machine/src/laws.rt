//! Laws of versioned runs. The bodies do nothing.

ghost use Rattle.std.specs.Prelude.{◌≡◌, ◌<◌, List, length, Some, ℤ};
ghost use Rattle.cj_ir.specs.WellFormed.{IsWellFormed, Takes};
ghost use Rattle.cj_ir.specs.declared.language.Program.{Program};
ghost use Rattle.cj_base.specs.declared.machine.End.TheVariants.{TurnLimit};
ghost use Rattle.cj_base.specs.Run.{Begun};
ghost use Rattle.cj_calls.specs.declared.report.Look.{Look};
ghost use Rattle.cj_calls.specs.declared.report.Report.{Report};
ghost use Rattle.cj_calls.specs.Reports.{ReportStands, IsWhole};
ghost use Rattle.cj_machine.specs.Versions.{State, Codes};
ghost use Rattle.cj_machine.specs.VersionRuns.{report_of, version_report};
ghost use Rattle.cj_machine.specs.Memories.{version_memory};
ghost use Rattle.cj_machine.specs.Marks.{run_marks};
ghost use Rattle.cj_machine.specs.CodeMaps.{SoundCodes, Grows, IsPlainTrail, IsPlainReport};
ghost use Rattle.cj_machine.specs.CallRuns.{IsUnderWay, IsRun};

/// A run each of whose looks finds a base body makes base turns alone, whatever versions there are.
pub fn plain_looks_give_plain_reports()
    ensures { (P : Program) (codes : Codes) (trail : List Look) (call : Begun) (r : Report) →
        IsPlainTrail trail → version_report P codes trail call ≡ Some r → IsPlainReport r }
{}

/// A run that has not reached its call's limit can make a turn.
pub fn run_is_under_way()
    ensures { (P : Program) (codes : Codes) (looks : List Look) (call : Begun) (s : State) →
        IsRun P codes looks call s → s.turns < call.limit → IsUnderWay P codes s }
{}

/// A run goes on in the same state over all codes that have those it had.
pub fn later_codes_keep_a_run()
    ensures { (P : Program) (codes later : Codes) (looks : List Look) (call : Begun) (s : State) →
        IsRun P codes looks call s → Grows codes later → IsRun P later looks call s }
{}

/// A call has the same report over all codes that have those it had.
pub fn later_codes_keep_a_report()
    ensures { (P : Program) (codes later : Codes) (looks : List Look) (call : Begun) (r : Report) →
        version_report P codes looks call ≡ Some r → Grows codes later → version_report P later looks call ≡ Some r }
{}

/// A run that has a report makes the same marks over all codes that have those it had.
pub fn later_codes_keep_the_marks()
    ensures { (P : Program) (codes later : Codes) (looks : List Look) (call : Begun) (r : Report) →
        version_report P codes looks call ≡ Some r → Grows codes later →
        run_marks P later looks call call.limit ≡ run_marks P codes looks call call.limit }
{}

/// A call leaves the same memory over all codes that have those it had.
pub fn later_codes_keep_the_memory()
    ensures { (P : Program) (codes later : Codes) (looks : List Look) (call : Begun) (memory : List ℤ) →
        version_memory P codes looks call ≡ Some memory → Grows codes later → version_memory P later looks call ≡ Some memory }
{}

/// The report of a run that reached its call's limit.
pub fn limit_is_the_report()
    ensures { (P : Program) (codes : Codes) (looks : List Look) (call : Begun) (s : State) →
        IsRun P codes looks call s → s.turns ≡ call.limit → version_report P codes looks call ≡ Some (report_of looks TurnLimit s) }
{}

/// The headline: over sound codes every report agrees with the base run, and is whole where the limit is large enough.
pub fn reports_have_the_headline()
    ensures { (P : Program) (codes : Codes) (looks : List Look) (call : Begun) (r : Report) →
        IsWellFormed P → SoundCodes P codes → Takes P.functions call.function (length call.args) →
        version_report P codes looks call ≡ Some r → ReportStands P call r × IsWhole P call r }
{}
