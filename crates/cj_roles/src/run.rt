//! A script's calls in threads.

ghost use Rattle.std.specs.Prelude.{◌≡◌, ◌≤◌, List, map, IfOk};
ghost use Rattle.std.specs.List.{AllZip};
ghost use Rattle.cj_script.specs.Fitting.{FitsScript};
ghost use Rattle.cj_base.specs.Run.{begun};
ghost use Rattle.cj_records.specs.Chains.{alone_each};
ghost use Rattle.cj_records.specs.Loops.{IsPrepared};
ghost use Rattle.cj_records.specs.Versions.{HasHeadline, RunStands};
ghost use Rattle.cj_publish.specs.declared.view.View.{View};
ghost use Rattle.cj_roles.specs.declared.role.Role.{Role};
ghost use Rattle.cj_roles.specs.Roles.{IsRunOver};
ghost use Rattle.cj_roles.specs.Slots.{IsFor, HasEnded};
ghost use Rattle.cj_roles.specs.Ran.{RolesRan};

use crate::dealing::deal;
use crate::gathering::gather;
use crate::joining::{Answers, join_all};
use crate::role::{Shared, Slot};
use crate::slots::run_slots;
use cj_alone::prepare;
use cj_calls::Reports;
use cj_io::Gate;
use cj_ir::{Input, NoMemory};
use cj_notes::Works;
use cj_records::Store;
use std::alloc::Global;
use std::sync::Wait;
use std::thread::Threads;

/// The words of a run's code table.
pub const TABLE_SIZE: u32 = 1_048_576;

/// Runs the calls of an input in threads, over new tables. First the setups act: the hints, and then the `warm` lines. Then
/// `callers` callers run the calls, call k (counted from 0) being that of caller k mod `callers`, while `workers` workers read
/// the profile and publish. There is a report for each call, in the order of the script, and a note for each `warm` line and
/// then for each job of the workers; the tables are given back with their first seats.
///
/// Callers are 1 to 4, and workers 0 to 4. A caller calls the gate round each call, and a worker where it found no work.
pub fn run_roles<R: Threads + Wait + Sync, G: Gate + Sync>(
    rt: &R,
    alloc: Global,
    input: &Input,
    callers: u32,
    workers: u32,
    gate: &G,
) -> Result<(Reports, Works, Store), NoMemory>
    requires fits { FitsScript input.now.checked input.now.script }
    requires callers { (1 ≤ callers) × (callers ≤ 4) }
    requires workers { workers ≤ 4 }
    ensures headline { IfOk result (λ made. HasHeadline input.now.checked (map begun input.now.script.calls) made.0) }
    ensures versions { IfOk result (λ made. RunStands input.now.checked 1048576 callers workers input.now.script.setups (alone_each (map begun input.now.script.calls)) made.0 made.1 made.2) }
{
    let setups = input.script.setups.items();
    // There are at most 64 functions, for which the table has room.
    let _program = input.checked.program();
    let (mut store, warm) = prepare(alloc, &input.checked, setups, TABLE_SIZE)?;
    let answers = run_all(rt, alloc, input, callers, workers, gate, &mut store, warm)?;
    let Answers { mut piles, work } = answers;
    piles.truncate(callers as usize);
    let reports = gather(alloc, piles, input.script.calls.items().len())?;
    Ok((reports, work, store))
}

/// Runs all roles over the tables of the store, and joins their seats into those of the store. Their notes come behind those
/// of the `warm` lines.
fn run_all<R: Threads + Wait + Sync, G: Gate + Sync>(
    rt: &R,
    alloc: Global,
    input: &Input,
    callers: u32,
    workers: u32,
    gate: &G,
    store: &mut Store,
    warm: Works,
) -> Result<Answers, NoMemory>
    requires fits { FitsScript input.now.checked input.now.script }
    requires few { (callers ≤ 4) × (workers ≤ 4) }
    requires some { 1 ≤ callers }
    requires prepared { IsPrepared input.now.checked 1048576 input.now.script.setups warm store.old }
    ensures { IfOk result (λ answers. RolesRan input.now callers workers warm answers store.new) }
{
    let mut slots = deal(alloc, store, callers, workers)?;
    run_in_threads(rt, alloc, input, store, gate, &mut slots);
    let answers = join_all(alloc, store, slots, warm)?;
    Ok(answers)
}

/// Runs the roles of the slots over the tables of the store.
fn run_in_threads<R: Threads + Wait + Sync, G: Gate + Sync>(
    rt: &R,
    alloc: Global,
    input: &Input,
    store: &Store,
    gate: &G,
    slots: &mut [Slot],
)
    requires store { IsRunOver input.now store.now }
    requires given { (v : View) × (roles : List Role) × AllZip (IsFor store.now.code store.now.profile v) roles slots.old }
    ensures { (v : View) (roles : List Role) → AllZip (IsFor store.now.code store.now.profile v) roles slots.old
        → AllZip (HasEnded input.now.script.calls store.now.code store.now.profile v) roles slots.new }
{
    let shared = Shared {
        checked: &input.checked,
        calls: input.script.calls.items(),
        code: &store.code,
        profile: &store.profile,
    };
    // Workers wait for all callers. Where no thread can be made for a part of the slots, it runs after the slots behind it: so the
    // workers stand in front.
    slots.reverse();
    run_slots(rt, alloc, &shared, gate, slots);
    slots.reverse();
}
