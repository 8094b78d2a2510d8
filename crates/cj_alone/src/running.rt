//! A script's calls on one thread.

ghost use Rattle.std.specs.Prelude.{◌≡◌, ◌<◌, ◌≤◌, length, map, IfOk};
ghost use Rattle.cj_script.specs.Fitting.{FitsScript};
ghost use Rattle.cj_base.specs.Run.{begun};
ghost use Rattle.cj_records.specs.Versions.{HasHeadline, AloneStands};

use crate::preparing::prepare;
use crate::rounds::{Progress, run_calls};
use crate::seats::Seats;
use cj_calls::Reports;
use cj_ir::{Input, NoMemory};
use cj_notes::Works;
use cj_records::Store;
use std::alloc::Global;

/// Runs the calls of an input over new tables, with `size` words in the code table. First the setups act: the hints, and then
/// the `warm` lines. Then each call runs in a session, and one work is done after it. There is a report for each call, and a
/// note for each `warm` line and then for each call; the tables are given back with their seats.
///
/// The size is from 1 plus the number of functions to 1,048,576.
pub fn alone_with(
    alloc: Global,
    input: &Input,
    size: u32,
) -> Result<(Reports, Works, Store), NoMemory>
    requires fits { FitsScript input.now.checked input.now.script }
    requires size { (length input.now.checked.functions < size) × (size ≤ 1048576) }
    ensures headline { IfOk result (λ made. HasHeadline input.now.checked (map begun input.now.script.calls) made.0) }
    ensures versions { IfOk result (λ made. AloneStands input.now.checked size input.now.script.setups (map begun input.now.script.calls) made.0 made.1 made.2) }
{
    let checked = &input.checked;
    let (store, warm) = prepare(alloc, checked, input.script.setups.items(), size)?;
    let Store {
        code,
        code_seat,
        profile,
        profile_seat,
    } = store;
    let seats = Seats {
        code: code_seat,
        profile: profile_seat,
    };
    let start = Progress {
        seats,
        reports: Reports::new(alloc),
        work: warm,
    };
    let calls = input.script.calls.items();
    let done = run_calls(alloc, checked, &code, &profile, start, calls)?;
    let Progress {
        seats,
        reports,
        work,
    } = done;
    let store = Store {
        code,
        code_seat: seats.code,
        profile,
        profile_seat: seats.profile,
    };
    Ok((reports, work, store))
}
