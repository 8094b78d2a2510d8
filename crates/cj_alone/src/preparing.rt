//! The tables of a run, as its calls find them.

ghost use Rattle.std.specs.Prelude.{◌≡◌, ◌<◌, ◌≤◌, true, length, All, IfOk, OnOk};
ghost use Rattle.cj_script.specs.Fitting.{FitsSetup};
ghost use Rattle.cj_profile.specs.Seats as counts;
ghost use Rattle.cj_profile.specs.Seats.{program_of, Belongs, IsSame, AddsPart};
ghost use Rattle.cj_publish.specs.Seats.{view_of, key_of, IsSole};
ghost use Rattle.cj_publish.specs.Views.{fresh};
ghost use Rattle.cj_worker.specs.Workers.{program_in, IsReady, Stays};
ghost use Rattle.cj_records.specs.Setups.{SetupPart};
ghost use Rattle.cj_records.specs.Loops.{IsPrepared};
ghost use Rattle.cj_records.specs.Versions.{IsWholeStore};
ghost use Rattle.cj_alone.specs.Seats.{view_at, reads_at, IsFree, AreSame};
ghost use Rattle.cj_alone.specs.Preparing.{HintsPart, WarmsUp, WarmedUp};

use crate::seats::Seats;
use cj_ir::{Checked, NoMemory, Setup};
use cj_notes::Works;
use cj_profile::{Profile, ProfileSeat};
use cj_publish::CodeTable;
use cj_records::Store;
use cj_worker::Worker;
use std::alloc::Global;

/// The tables of a program, new, with `size` words in the code table. First the hints are set, in order, and then the `warm`
/// lines are compiled, in order, with a note for each.
///
/// The size is from 1 plus the number of functions to 1,048,576.
pub fn prepare(
    alloc: Global,
    checked: &Checked,
    setups: &[Setup],
    size: u32,
) -> Result<(Store, Works), NoMemory>
    requires setups { All (FitsSetup checked.now.functions) setups.now }
    requires size { (length checked.now.functions < size) × (size ≤ 1048576) }
    ensures { IfOk result (λ made. IsPrepared checked.now size setups.now made.1 made.0) }
{
    let mut store = new_tables(alloc, checked, size)?;
    set_hints(&store.profile, &mut store.profile_seat, setups);
    let Store {
        code,
        code_seat,
        profile,
        profile_seat,
    } = store;
    let seats = Seats {
        code: code_seat,
        profile: profile_seat,
    };
    let (seats, warm) = warm_up(alloc, checked, &code, &profile, seats, setups)?;
    let store = Store {
        code,
        code_seat: seats.code,
        profile,
        profile_seat: seats.profile,
    };
    Ok((store, warm))
}

/// A program's tables, new, with `size` words in the code table, and the one seat that there is at each.
fn new_tables(alloc: Global, checked: &Checked, size: u32) -> Result<Store, NoMemory>
    requires size { (length checked.now.functions < size) × (size ≤ 1048576) }
    ensures whole { IfOk result (λ store. IsWholeStore 0 size checked.now store) }
    ensures sole { IfOk result (λ store. IsSole store.code_seat × counts.IsSole store.profile_seat) }
    ensures unused { IfOk result (λ store. (view_of store.code_seat ≡ fresh (key_of store.code)) × counts.IsNew true store.profile_seat) }
{
    let (code, code_seat) = CodeTable::make(alloc, checked, size)?;
    let (profile, profile_seat) = Profile::make(alloc, checked)?;
    Ok(Store {
        code,
        code_seat,
        profile,
        profile_seat,
    })
}

/// Sets the hints, in order.
fn set_hints(profile: &Profile, seat: &mut ProfileSeat, setups: &[Setup])
    requires own { Belongs profile.now seat.old }
    requires setups { All (FitsSetup (program_of profile.now).functions) setups.now }
    ensures own { Belongs profile.now seat.new }
    ensures same { IsSame seat.old seat.new }
    ensures part { AddsPart (HintsPart (program_of profile.now) setups.now) seat.old seat.new }
{
    for setup in setups {
        set_hint(profile, seat, setup);
    }
}

/// Sets a hint. A `warm` line is none.
fn set_hint(profile: &Profile, seat: &mut ProfileSeat, setup: &Setup)
    requires own { Belongs profile.now seat.old }
    requires setup { FitsSetup (program_of profile.now).functions setup.now }
    ensures own { Belongs profile.now seat.new }
    ensures same { IsSame seat.old seat.new }
    ensures part { AddsPart (SetupPart setup.now) seat.old seat.new }
{
    match *setup {
        Setup::Guess {
            function,
            param,
            value,
        } => profile.set_guess(seat, function, param, value),
        Setup::Cold {
            function,
            label,
            edge,
        } => profile.set_cold(seat, function, label, edge),
        Setup::Warm { .. } => {}
    }
}

/// Compiles the `warm` lines, in order.
fn warm_up(
    alloc: Global,
    checked: &Checked,
    code: &CodeTable,
    profile: &Profile,
    seats: Seats,
    setups: &[Setup],
) -> Result<(Seats, Works), NoMemory>
    requires free { IsFree checked.now code.now profile.now seats }
    requires setups { All (FitsSetup checked.now.functions) setups.now }
    ensures free { IfOk result (λ made. IsFree checked.now code.now profile.now made.0) }
    ensures same { IfOk result (λ made. AreSame seats made.0) }
    ensures warmed { IfOk result (λ made. WarmedUp checked.now setups.now made.1 (view_at seats) (reads_at seats) (view_at made.0) (reads_at made.0)) }
{
    let mut worker = Worker::new(alloc, checked, code, seats.code, profile, seats.profile);
    let mut warm = Works::new(alloc);
    for setup in setups {
        warm_one(&mut worker, setup, &mut warm)?;
    }
    let (code, profile) = worker.into_seats();
    Ok((Seats { code, profile }, warm))
}

/// Compiles what a `warm` line names. A hint is passed by.
fn warm_one(worker: &mut Worker<'_>, setup: &Setup, warm: &mut Works) -> Result<(), NoMemory>
    requires ready { IsReady worker.old }
    requires setup { FitsSetup (program_in worker.old).functions setup.now }
    ensures ready { IsReady worker.new }
    ensures stays { Stays worker.old worker.new }
    ensures warms { OnOk result (WarmsUp setup.now worker.old worker.new warm.old warm.new) }
{
    match *setup {
        Setup::Warm { function, level } => {
            let note = worker.warm(function, level)?;
            warm.push(note)
        }
        Setup::Guess { .. } | Setup::Cold { .. } => Ok(()),
    }
}
