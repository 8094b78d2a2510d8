//! The reports of callers, put together in the order of the script.

ghost use Rattle.std.specs.Prelude.{◌≡◌, List, length, map, IfOk};
ghost use Rattle.cj_calls.specs.declared.report.Report.{Report};
ghost use Rattle.cj_roles.specs.Piles.{ArePiles, IsFirst, TakesFirst};

use cj_calls::{Report, Reports};
use cj_ir::NoMemory;
use std::alloc::Global;
use std::collections::VecDeque;

/// The reports of `count` calls that were dealt to callers, one after the other: each pile has those of one caller, in order.
pub(crate) fn gather(
    alloc: Global,
    mut piles: VecDeque<VecDeque<Report>>,
    count: usize,
) -> Result<Reports, NoMemory>
    requires { (reports : List Report) × ArePiles reports (map (λ pile. pile.items) piles.items) × (length reports ≡ count) }
    ensures { IfOk result (λ reports. ArePiles reports (map (λ pile. pile.items) piles.items) × (length reports ≡ count)) }
{
    let mut reports = Reports::new(alloc);
    for _ in 0..count {
        reports.push(take_next(&mut piles)?)?;
    }
    Ok(reports)
}

/// Takes the first report of the first pile, which is the last one from then on.
fn take_next(piles: &mut VecDeque<VecDeque<Report>>) -> Result<Report, NoMemory>
    requires { (report : Report) × IsFirst report (map (λ pile. pile.items) piles.old.items) }
    ensures { IfOk result (λ report. TakesFirst report (map (λ pile. pile.items) piles.old.items) (map (λ pile. pile.items) piles.new.items)) }
{
    let Some(mut pile) = piles.pop_front() else {
        unreachable!()
    };
    let Some(report) = pile.pop_front() else {
        unreachable!()
    };
    piles.push_back(pile)?;
    Ok(report)
}
