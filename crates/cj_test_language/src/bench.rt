//! Worked texts and summaries. What is expected was worked out by a script of its own, from the rules.

use cj_base::End;
use cj_bench::{generate, generated, summary_of};
use cj_calls::{Looks, Notes, Report, Reports};
use cj_ir::{FunId, Label, NoMemory, Values};
use std::alloc::Global;
use std::process::Abort;
use std::test::Fail;

const HEAD: &str = "fun f0(a, b; r, s, t) {
1: op r = a * 68 -> 2
2: op s = r % 18 -> 3
3: op t = s < 10 -> 4
4: cond t -> 5, 6
5: op s = s + b -> 7
6: op s = s - b -> 7
7: store [18] = s -> 8
8: call r = f1(s, b) -> 9
9: print r -> 10
10: return r
}
";

const END: &str = "
call f0 538 1 memory 64 limit 15000
";

#[test]
fn seven_has_its_text(rt: HostRuntime) -> Result<(), Fail> {
    let text = generate(rt.alloc(), 7)?;
    let text = text.as_slice();
    assert_eq!(rt; text.len(), 16619);
    assert!(rt; text.starts_with(HEAD.as_bytes()));
    assert!(rt; text.ends_with(END.as_bytes()));
    Ok(())
}

#[test]
fn the_greatest_number_has_an_input(rt: HostRuntime) -> Result<(), Fail> {
    let input = generated(rt.alloc(), 999999)?;
    assert_eq!(rt; input.checked.program().functions.items().len(), 32);
    let calls = input.script.calls.items();
    assert_eq!(rt; calls.len(), 256);
    assert_eq!(rt; calls[0].args.items(), [634, 0].as_slice());
    assert_eq!(rt; calls[255].args.items(), [899, 3].as_slice());
    Ok(())
}

fn report(alloc: Global, prints: &[i64], end: End) -> Result<Report, NoMemory> {
    let mut printed = Values::new(alloc);
    for value in prints {
        printed.push(*value)?;
    }
    Ok(Report {
        printed,
        end,
        turns: 1,
        base_turns: 1,
        fails: 0,
        notes: Notes::new(alloc),
        looks: Looks::new(alloc),
    })
}

#[test]
fn sums_wrap_and_a_failed_call_returns_nothing(rt: HostRuntime) -> Result<(), Fail> {
    let alloc = rt.alloc();
    let failed = End::Failed {
        function: FunId(0),
        label: Label(0),
    };
    let mut reports = Reports::new(alloc);
    reports.push(report(alloc, &[1, 2], End::Returned(i64::MAX))?)?;
    reports.push(report(alloc, &[3], failed)?)?;
    reports.push(report(alloc, &[], End::Returned(1))?)?;
    let text = summary_of(alloc, 7, &reports)?;
    let expected = b"bench 7\ncalls 3\nreturns 2\nprints 3\nsum -9223372036854775808\n";
    assert_eq!(rt; text.as_slice(), expected.as_slice());
    Ok(())
}
