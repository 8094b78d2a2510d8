//! Scripts in threads.

ghost use Rattle.std.specs.Prelude.{◌≡◌, ◌<◌, ◌≤◌, true, length};
ghost use Rattle.cj_script.specs.Fitting.{FitsScript};

mod holds;
mod phases;
mod stress;

use cj_alone::alone_with;
use cj_calls::Reports;
use cj_io::OpenGate;
use cj_ir::{Input, NoMemory};
use cj_roles::{TABLE_SIZE, run_roles};
use cj_text::parse;
use holds::{gate_for, held_in_time};
use std::alloc::Global;
use std::process::Abort;
use std::test::Fail;

// The same prints and the same end.
fn are_alike(reports: &Reports, others: &Reports) -> bool {
    for (one, other) in reports.items().iter().zip(others.items()) {
        if one.printed.items() != other.printed.items() || one.end != other.end {
            return false;
        }
    }
    reports.items().len() == others.items().len()
}

fn is_small(input: &Input) -> bool
    ensures { result ≡ true → length input.now.checked.functions < 1048576 }
{
    input.checked.program().functions.items().len() < 1_048_576
}

// What the calls of a text print and how they end on one thread.
fn alone(rt: &impl Abort, alloc: Global, input: &Input) -> Result<Reports, NoMemory>
    requires { FitsScript input.now.checked input.now.script }
{
    assert!(rt; is_small(input));
    let (reports, _work, _store) = alone_with(alloc, input, TABLE_SIZE)?;
    Ok(reports)
}

const TWO_CALLS: &[u8] = b"fun main(n; r) { 1: op r = n + 1 -> 2 2: print r -> 3 3: return r }
    calls call main 4 limit 100 call main 5 limit 100";

#[test]
fn callers_and_workers_run_beside_each_other(rt: HostRuntime) -> Result<(), Fail> {
    let input = parse(rt.alloc(), TWO_CALLS)?;
    let gate = gate_for(1, 2, 1);
    let (reports, _work, _store) = run_roles(&rt, rt.alloc(), &input, 2, 2, &gate)?;
    assert!(rt; held_in_time(&gate));
    assert!(rt; are_alike(&reports, &alone(&rt, rt.alloc(), &input)?));
    Ok(())
}

const NINE_CALLS: &[u8] = b"fun main(n; r) { 1: op r = n + 1 -> 2 2: print r -> 3 3: return r }
    calls call main 4 limit 100 call main 4 limit 100 call main 4 limit 100
    call main 4 limit 100 call main 4 limit 100 call main 4 limit 100
    call main 4 limit 100 call main 4 limit 100 call main 4 limit 100";

// The last call looked a version up.
fn entered_a_version(reports: &Reports) -> bool {
    match reports.items().last() {
        None => false,
        Some(report) => report.looks.items().iter().any(|look| look.offset != 0),
    }
}

#[test]
fn ninth_call_enters_what_a_worker_thread_published(rt: HostRuntime) -> Result<(), Fail> {
    let input = parse(rt.alloc(), NINE_CALLS)?;
    let gate = gate_for(9, 8, 2);
    let (reports, work, _store) = run_roles(&rt, rt.alloc(), &input, 1, 1, &gate)?;
    assert!(rt; held_in_time(&gate) && work.items().len() == 1);
    assert!(rt; entered_a_version(&reports));
    Ok(())
}

const BANK: &[u8] =
    b"fun main(k; r) { 1: op r = k * 100 -> 2 2: call r = deposit(0, r) -> 3 3: call r = deposit(1, 50) -> 4 4:
    call r = transfer(0, 1, 200) -> 5 5: print r -> 6 6: call r = total() -> 7 7: return r } fun deposit(a,
    v; b) { 1: load b = [a] -> 2 2: op b = b + v -> 3 3: store [a] = b -> 4 4: return b } fun withdraw(a, v;
    b, s) { 1: load b = [a] -> 2 2: op s = b < v -> 3 3: cond s -> 4, 5 4: return -1 5: op b = b - v -> 6 6:
    store [a] = b -> 7 7: return b } fun fee(v; r) { 1: op r = v / 10 -> 2 2: return r } fun transfer(a, b,
    v; f, s, t) { 1: call f = fee(v) -> 2 2: op s = v + f -> 3 3: call t = withdraw(a, s) -> 4 4: op s = t <
    0 -> 5 5: cond s -> 6, 7 6: return 0 7: call t = deposit(b, v) -> 8 8: return 1 } fun total(; x, y) { 1:
    load x = [0] -> 2 2: load y = [1] -> 3 3: op x = x + y -> 4 4: return x } calls";

// A program's text with these calls, each so many times.
fn script(alloc: Global, program: &[u8], calls: &[(&[u8], u32)]) -> Result<Vec<u8>, Fail> {
    let mut text = Vec::new(alloc);
    text.extend_from_slice(program)?;
    for (call, times) in calls {
        for _ in 0..*times {
            text.extend_from_slice(call)?;
        }
    }
    Ok(text)
}

#[test]
fn bank_in_threads_pays_as_on_one_thread(rt: HostRuntime) -> Result<(), Fail> {
    let calls: [(&[u8], u32); 3] = [
        (b" call main 1 limit 2000", 20),
        (b" call main 3 limit 2000", 60),
        (b" call main 2 limit 2000", 2),
    ];
    let text = script(rt.alloc(), BANK, &calls)?;
    let input = parse(rt.alloc(), text.as_slice())?;
    let (reports, _work, _store) = run_roles(&rt, rt.alloc(), &input, 2, 1, &OpenGate)?;
    assert!(rt; are_alike(&reports, &alone(&rt, rt.alloc(), &input)?));
    Ok(())
}
