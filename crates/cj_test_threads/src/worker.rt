//! Versions of a function that returns at once and of the double, whose parameter is guessed.

ghost use Rattle.std.specs.Prelude.{◌≡◌, ◌<◌, ◌≤◌, length, IsTrue, IfOk};
ghost use Rattle.cj_ir.specs.Program.{param_count};
ghost use Rattle.cj_profile.specs.Seats.{program_of, Belongs};
ghost use Rattle.cj_test_threads.specs.Doubles.{main, HasMain, HasDouble};
ghost use Rattle.cj_worker.specs.Workers.{program_in, IsReady};

use cj_io::OpenGate;
use cj_ir::{Checked, FunId};
use cj_notes::WorkNote;
use cj_profile::{ParamNote, Profile, ProfileSeat, Snapshot};
use cj_publish::{CodeSeat, CodeTable};
use cj_samples::{alone, constant_zero, double as doubling};
use cj_worker::Worker;
use std::alloc::Global;
use std::process::Abort;
use std::sync::Wait;
use std::test::Fail;

const MAIN: FunId = FunId(0);

fn has_main(checked: &Checked) -> bool
    ensures { IsTrue result → HasMain checked.now }
{
    checked.program().functions.items().len() == 1
}

fn has_double(checked: &Checked) -> bool
    ensures { IsTrue result → HasDouble checked.now }
{
    has_main(checked) && checked.function(MAIN).params == 1
}

fn returning(rt: &impl Abort, alloc: Global) -> Result<Checked, Fail>
    ensures { IfOk result (λ checked. HasMain checked) }
{
    let checked = alone(constant_zero(alloc, "main")?)?;
    assert!(rt; has_main(&checked));
    Ok(checked)
}

fn double(rt: &impl Abort, alloc: Global) -> Result<Checked, Fail>
    ensures { IfOk result (λ checked. HasDouble checked) }
{
    let checked = alone(doubling(alloc)?)?;
    assert!(rt; has_double(&checked));
    Ok(checked)
}

// The note of `warm` with a table of so many words.
fn warm_note(alloc: Global, checked: &Checked, size: u32) -> Result<WorkNote, Fail>
    requires main { HasMain checked.now }
    requires size { (2 ≤ size) × (size ≤ 1048576) }
{
    let (table, code_seat) = CodeTable::make(alloc, checked, size)?;
    let (profile, profile_seat) = Profile::make(alloc, checked)?;
    let mut worker = Worker::new(alloc, checked, &table, code_seat, &profile, profile_seat);
    Ok(worker.warm(MAIN, 1)?)
}

fn is_full(note: &WorkNote, at: u64, words: u32) -> bool {
    match note {
        WorkNote::Full { next, need, .. } => *next == at && *need == words,
        _ => false,
    }
}

// It is published there at that level, and nothing is skipped.
fn is_published(note: &WorkNote, at: u64, by: u8) -> bool {
    match note {
        WorkNote::Published {
            level,
            offset,
            skipped,
            ..
        } => *offset == at && *level == by && skipped.items().is_empty(),
        _ => false,
    }
}

fn is_guess(snapshot: &Snapshot) -> bool {
    let param = ParamNote { last: 5, agreed: 4 };
    snapshot.params.items() == [param].as_slice()
}

fn has_guess(note: &WorkNote) -> bool {
    match note {
        WorkNote::Published { snapshot, .. } => is_guess(snapshot),
        _ => false,
    }
}

#[test]
fn a_version_is_published_where_its_words_have_room(rt: HostRuntime) -> Result<(), Fail> {
    let alloc = rt.alloc();
    let checked = returning(&rt, alloc)?;
    assert!(rt; is_full(&warm_note(alloc, &checked, 18)?, 2, 17));
    assert!(rt; is_published(&warm_note(alloc, &checked, 19)?, 2, 1));
    Ok(())
}

// A level is asked for and done, and then there is no job.
fn works(rt: &impl Abort, worker: &mut Worker<'_>, at: u64, level: u8) -> Result<(), Fail>
    requires { IsReady worker.old }
    ensures { IsReady worker.new }
{
    assert!(rt; is_published(&worker.work_one()?, at, level));
    assert!(rt; matches!(worker.work_one()?, WorkNote::NoneAsked));
    Ok(())
}

// The parameter of the double is expected to be 5.
fn guess(profile: &Profile, seat: &mut ProfileSeat)
    requires own { Belongs profile.now seat.old }
    requires double { HasDouble (program_of profile.now) }
    ensures own { Belongs profile.now seat.new }
{
    profile.set_guess(seat, MAIN, 0, 5);
}

fn ask(profile: &Profile, seat: &mut ProfileSeat, level: u8)
    requires own { Belongs profile.now seat.old }
    requires double { HasDouble (program_of profile.now) }
    requires level { (1 ≤ level) × (level ≤ 3) }
    ensures own { Belongs profile.now seat.new }
{
    profile.ask(seat, MAIN, level);
}

#[test]
fn a_guess_is_guarded_by_the_version_that_is_warmed(rt: HostRuntime) -> Result<(), Fail> {
    let alloc = rt.alloc();
    let checked = double(&rt, alloc)?;
    let (table, code_seat) = CodeTable::make(alloc, &checked, 1000)?;
    let (profile, mut profile_seat) = Profile::make(alloc, &checked)?;
    guess(&profile, &mut profile_seat);
    let mut worker = Worker::new(alloc, &checked, &table, code_seat, &profile, profile_seat);
    let note = worker.warm(MAIN, 1)?;
    assert!(rt; is_published(&note, 2, 1) && has_guess(&note));
    assert!(rt; matches!(worker.work_one()?, WorkNote::NoneAsked));
    Ok(())
}

#[test]
fn a_level_that_is_asked_is_done_once(rt: HostRuntime) -> Result<(), Fail> {
    let alloc = rt.alloc();
    let checked = double(&rt, alloc)?;
    let (table, code_seat) = CodeTable::make(alloc, &checked, 1000)?;
    let (profile, mut profile_seat) = Profile::make(alloc, &checked)?;
    ask(&profile, &mut profile_seat, 3);
    let mut worker = Worker::new(alloc, &checked, &table, code_seat, &profile, profile_seat);
    works(&rt, &mut worker, 2, 3)?;
    let work = worker.work_until_stopped(&rt, 0, &OpenGate)?;
    assert!(rt; work.items().is_empty());
    let (_code_seat, _profile_seat) = worker.into_seats();
    Ok(())
}
