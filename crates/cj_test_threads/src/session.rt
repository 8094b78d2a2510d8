//! Calls of the increment and of a recursion, through sessions.

ghost use Rattle.std.specs.Prelude.{◌≡◌, ◌≤◌, ◌<◌, true, length, IfOk};
ghost use Rattle.cj_ir.specs.WellFormed.{Takes};
ghost use Rattle.cj_session.specs.Sessions.{IsReady};

use cj_base::End;
use cj_calls::Report;
use cj_ir::{Checked, FunId, NoMemory, ScriptCall};
use cj_profile::{JobAnswer, Profile};
use cj_publish::CodeTable;
use cj_samples::{alone, call_of_first, increment, recursion};
use cj_session::*;
use std::alloc::Global;
use std::process::Abort;
use std::test::Fail;

const MAIN: FunId = FunId(0);

// Main takes the arguments, the limit is one, and there is room for each function in a table.
fn fits(checked: &Checked, call: &ScriptCall) -> bool
    ensures takes { result ≡ true → Takes checked.now.functions call.now.function (length call.now.args) }
    ensures limit { result ≡ true → (1 ≤ call.now.limit) × (call.now.limit ≤ 1000000) }
    ensures room { result ≡ true → length checked.now.functions < 1000 }
{
    let functions = checked.program().functions.items();
    let takes = match functions.get(call.function.0 as usize) {
        None => false,
        Some(function) => function.params as usize == call.args.items().len(),
    };
    takes && 1 <= call.limit && call.limit <= 1_000_000 && functions.len() < 1000
}

// It returned that value, after so many lookups that found no version.
fn is_plain(report: &Report, value: i64, lookups: usize) -> bool {
    let looks = report.looks.items();
    report.end == End::Returned(value)
        && looks.len() == lookups
        && looks
            .iter()
            .all(|look| look.function == MAIN && look.offset == 0)
}

// Whether each of so many calls is plain.
fn returns(
    session: &mut Session<'_>,
    call: &ScriptCall,
    times: u32,
    value: i64,
    lookups: usize,
) -> Result<bool, NoMemory>
    requires ready { IsReady session.old }
    requires takes { Takes session.old.checked.now.functions call.now.function (length call.now.args) }
    requires limit { (1 ≤ call.now.limit) × (call.now.limit ≤ 1000000) }
    ensures ready { IsReady session.new }
    ensures checked { session.new.checked.now ≡ session.old.checked.now }
    ensures profile { session.new.profile.now ≡ session.old.profile.now }
{
    let mut plain = true;
    for _ in 0..times {
        let report = session.run(call)?;
        plain = plain && is_plain(&report, value, lookups);
    }
    Ok(plain)
}

// What is asked for.
fn job(session: Session<'_>, profile: &Profile) -> JobAnswer
    requires ready { IsReady session }
    requires profile { session.profile.now ≡ profile.now }
{
    let (_, mut profile_seat) = session.into_seats();
    profile.take_job(&mut profile_seat)
}

// Calls in a session at new tables. Whether all were plain, and what is asked for after them.
fn asked(
    rt: &impl Abort,
    alloc: Global,
    checked: &Checked,
    call: &ScriptCall,
    times: u32,
    value: i64,
    lookups: usize,
) -> Result<(bool, JobAnswer), NoMemory> {
    assert!(rt; fits(checked, call));
    let (table, code_seat) = CodeTable::make(alloc, checked, 1000)?;
    let (profile, profile_seat) = Profile::make(alloc, checked)?;
    let versions = Versions::new(alloc);
    let mut session = Session::new(
        alloc,
        checked,
        &table,
        code_seat,
        &profile,
        profile_seat,
        versions,
    );
    let plain = returns(&mut session, call, times, value, lookups)?;
    Ok((plain, job(session, &profile)))
}

#[test]
fn the_eighth_call_asks_for_the_first_level(rt: HostRuntime) -> Result<(), Fail> {
    let alloc = rt.alloc();
    let checked = alone(increment(alloc)?)?;
    let call = call_of_first(alloc, 4, 0, 1_000_000)?;
    let first = JobAnswer::Job { f: MAIN, level: 1 };
    assert!(rt; asked(&rt, alloc, &checked, &call, 7, 5, 1)? == (true, JobAnswer::NoneAsked));
    assert!(rt; asked(&rt, alloc, &checked, &call, 8, 5, 1)? == (true, first));
    Ok(())
}

#[test]
fn each_of_ten_thousand_entries_is_looked_up(rt: HostRuntime) -> Result<(), Fail> {
    let alloc = rt.alloc();
    let checked = alone(recursion(alloc)?)?;
    let call = call_of_first(alloc, 10_000, 0, 1_000_000)?;
    let second = JobAnswer::Job { f: MAIN, level: 2 };
    assert!(rt; asked(&rt, alloc, &checked, &call, 1, 10_000, 10_001)? == (true, second));
    Ok(())
}
