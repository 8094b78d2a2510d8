//! The play of events.

ghost use Rattle.std.specs.Prelude.{◌≡◌, All, IfOk};
ghost use Rattle.std.specs.List.{AllZip};
ghost use Rattle.cj_events.specs.Playable.{CanPlay};
ghost use Rattle.cj_world.specs.Plays.{AllHappen};
ghost use Rattle.cj_world.specs.Worlds.{codes_in, first_world};
ghost use Rattle.cj_world.specs.Played.{IsPlay};
ghost use Rattle.cj_world.specs.Caches.{made_in};
ghost use Rattle.cj_world.specs.Running.{IsThrough, IsToldOf, Orderly, world_of};

use crate::played::Played;
use crate::runs::Run;
use crate::world::World;
use cj_calls::Reports;
use cj_events::Events;
use cj_ir::{Checked, NoMemory};
use cj_machine::laws::reports_have_the_headline;
use std::alloc::Global;

/// The words of the table of versions.
const TABLE_WORDS: u32 = 1_048_576;

/// The play of events, in a table of 1,048,576 words, which begins with one word and one for each function.
///
/// Any events may be played that can happen: each run that begins is of a function of the program, with as many arguments
/// as it takes and a limit of 1 to 1,000,000 turns; each run that makes steps has begun; each function that is compiled
/// exists. Passes may name labels and registers that are nowhere, and then they are skipped.
///
/// The events happen one after the other. A run that begins looks its function up. A step makes so many turns of its run,
/// fewer where the run ends or reaches its limit; a turn that calls a function looks it up. A look finds the function's
/// current version, or its base body. A compilation makes the version of its passes, claims for it the first free words, and
/// makes it its function's current one. A version of more than 65,536 words is too large, and the table is full where the
/// version's words are more than are left; then nothing changes. After the last event each run goes on to its end, in order.
///
/// There is one report for each run, in the order in which they began. It is the one of the versioned run over its looks and
/// the versions that were published, and agrees with the base run. No look finds an older version of a function than an
/// earlier look did, of whatever run.
pub fn play(alloc: Global, checked: &Checked, events: &Events) -> Result<Played, NoMemory>
    requires fits { CanPlay checked.now events.now }
    ensures { IfOk result (IsPlay checked.now 1048576 events.now) }
{
    let played = play_in(alloc, checked, events, TABLE_WORDS)?;
    Ok(played)
}

/// The play of events, as by [`play`], in a table of so many words.
///
/// A table of fewer words is full earlier.
pub fn play_in(
    alloc: Global,
    checked: &Checked,
    events: &Events,
    words: u32,
) -> Result<Played, NoMemory>
    requires fits { CanPlay checked.now events.now }
    ensures { IfOk result (IsPlay checked.now words events.now) }
{
    let _program = checked.program();
    let mut world = World::first(alloc, checked, words)?;
    for event in events.items() {
        world.happen(event)?;
    }
    world.finish()?;
    reports_have_the_headline();
    let played = world.into_played()?;
    Ok(played)
}
