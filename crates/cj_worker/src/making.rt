//! The words of a job's version, for which memory is taken.

ghost use Rattle.std.specs.Prelude.{◌≡◌, ◌<◌, ◌≤◌, [], length, All, IfOk, IfErr, OnErr};
ghost use Rattle.cj_spelling.specs.Spells.{Spells, EncodeFails};
ghost use Rattle.cj_publish.specs.Spelled.{SpellsVersion};
ghost use Rattle.cj_profile.specs.Reads.{Keeps};
ghost use Rattle.cj_profile.specs.Snapshots.{FitsFunction};
ghost use Rattle.cj_profile.specs.Seats.{program_of, reads_of, Belongs, IsSame};
ghost use Rattle.cj_parts.specs.Calls.{GainsPart};
ghost use Rattle.cj_notes.specs.Jobs.{job, IsMadeFor};
ghost use Rattle.cj_notes.specs.JobParts.{LooksAt};
ghost use Rattle.cj_worker.specs.Tasks.{IsTaskOf, job_in, IsMade};

use crate::tasks::{Made, Task};
use cj_draft::{Skips, Version};
use cj_ir::{Checked, FunId, NoMemory};
use cj_passes::pipeline;
use cj_plan::plan;
use cj_profile::{Profile, ProfileSeat, Snapshot};
use cj_spelling::laws::named_code_is_in_range;
use cj_spelling::{EncodeError, Words, encode};
use std::alloc::Global;

/// Reads what the profile says of a function, and makes its version for that level. Where there is no memory, some words of
/// the profile were loaded, and nothing else was done.
pub(crate) fn prepare(
    alloc: Global,
    checked: &Checked,
    profile: &Profile,
    seat: &mut ProfileSeat,
    f: FunId,
    level: u8,
) -> Result<(Task, Made), NoMemory>
    requires own { Belongs profile.now seat.old }
    requires program { program_of profile.now ≡ checked.now }
    requires function { f.0 < length checked.now.functions }
    requires level { (1 ≤ level) × (level ≤ 3) }
    ensures own { Belongs profile.now seat.new }
    ensures same { IsSame seat.old seat.new }
    ensures task { IfOk result (λ made. IsTaskOf f level made.0) }
    ensures made { IfOk result (λ made. IsMade checked.now (job_in made.0) made.1) }
    ensures reads { IfOk result (λ made. GainsPart (LooksAt checked.now (job_in made.0)) (reads_of seat.old) (reads_of seat.new)) }
    ensures lost { OnErr result (GainsPart (All Keeps) (reads_of seat.old) (reads_of seat.new)) }
{
    let task = look(alloc, checked, profile, seat, f, level)?;
    let made = make(alloc, checked, &task)?;
    Ok((task, made))
}

/// The job of a function at a level, with what the profile says now.
fn look(
    alloc: Global,
    checked: &Checked,
    profile: &Profile,
    seat: &mut ProfileSeat,
    f: FunId,
    level: u8,
) -> Result<Task, NoMemory>
    requires own { Belongs profile.now seat.old }
    requires program { program_of profile.now ≡ checked.now }
    requires function { f.0 < length checked.now.functions }
    ensures own { Belongs profile.now seat.new }
    ensures same { IsSame seat.old seat.new }
    ensures task { IfOk result (λ task. IsTaskOf f level task) }
    ensures fits { IfOk result (λ task. FitsFunction checked.now f task.snapshot) }
    ensures reads { IfOk result (λ task. GainsPart (LooksAt checked.now (job_in task)) (reads_of seat.old) (reads_of seat.new)) }
    ensures lost { OnErr result (GainsPart (All Keeps) (reads_of seat.old) (reads_of seat.new)) }
{
    let snapshot = profile.snapshot(alloc, seat, f)?;
    Ok(Task { f, level, snapshot })
}

/// What is made for a job: the words of its version, or how many they would be.
fn make(alloc: Global, checked: &Checked, task: &Task) -> Result<Made, NoMemory>
    requires function { task.now.f.0 < length checked.now.functions }
    requires level { (1 ≤ task.now.level) × (task.now.level ≤ 3) }
    requires fits { FitsFunction checked.now task.now.f task.now.snapshot }
    ensures made { IfOk result (λ made. IsMade checked.now (job_in task.now) made) }
{
    let (version, skipped) = version_for(alloc, checked, task.f, task.level, &task.snapshot)?;
    match spell(alloc, &version) {
        Ok(words) => Ok(Made::Spelled { words, skipped }),
        Err(EncodeError::TooLarge { len }) => Ok(Made::TooLarge { len }),
        Err(EncodeError::NoMemory) => Err(NoMemory),
    }
}

/// The version that the plan makes, with what is skipped.
fn version_for<'p>(
    alloc: Global,
    checked: &'p Checked,
    f: FunId,
    level: u8,
    snapshot: &Snapshot,
) -> Result<(Version<'p>, Skips), NoMemory>
    requires function { f.0 < length checked.now.functions }
    requires level { (1 ≤ level) × (level ≤ 3) }
    requires fits { FitsFunction checked.now f snapshot.now }
    ensures program { IfOk result (λ made. made.0.program ≡ checked.now) }
    ensures context { IfOk result (λ made. made.0.context ≡ []) }
    ensures function { IfOk result (λ made. made.0.code.function ≡ f) }
    ensures made { IfOk result (λ made. IsMadeFor checked.now (job f level snapshot.now) made.0.code made.1) }
{
    let passes = plan(alloc, checked, f, level, snapshot)?;
    pipeline(alloc, checked, f, &passes)
}

/// The words of a version.
fn spell(alloc: Global, version: &Version<'_>) -> Result<Words, EncodeError>
    requires context { version.now.context ≡ [] }
    ensures words { IfOk result (λ words. Spells words version.now.code) }
    ensures version { IfOk result (λ words. SpellsVersion version.now.program version.now.code.function 0 words) }
    ensures fails { IfErr result (λ error. EncodeFails error version.now.code) }
{
    let code = version.code();
    named_code_is_in_range(version.checked().program(), code);
    encode(alloc, code)
}
