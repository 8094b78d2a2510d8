//! The summary of what a generated script answers.

ghost use Rattle.std.specs.Prelude.{◌≡◌, ◌++◌, ◌+ℤ◌, length, is_some, IfOk, OnOk, MatchOption};
ghost use Rattle.cj_ir.specs.Values.{wrap};
ghost use Rattle.cj_bench.specs.Summary.{value_of_end, returned, print_count, total, summary_line, summary_text};

use cj_base::End;
use cj_calls::{Report, Reports};
use cj_ir::NoMemory;
use itoa::{Buffer, Integer};
use std::alloc::Global;

/// The summary of the reports of a number: five lines, each a word, a blank, a decimal and a line
/// feed. They are `bench` with the number, `calls` with the number of reports, `returns` with the number of those that
/// returned, `prints` with the number of all prints, and `sum` with the sum of all returned values, wrapped modulo
/// 2^64 into the range of values.
#[tactic(auto, unfolding(crate::specs::Summary::summary_text))]
pub fn summary_of(alloc: Global, number: u32, reports: &Reports) -> Result<Vec<u8>, NoMemory>
    ensures { IfOk result (λ text. text.items ≡ summary_text number reports.now) }
{
    let reports = reports.items();
    let mut text = Vec::new(alloc);
    push_line(&mut text, b"bench", number)?;
    push_line(&mut text, b"calls", reports.len())?;
    push_line(&mut text, b"returns", count_returned(reports))?;
    push_line(&mut text, b"prints", count_prints(reports))?;
    push_line(&mut text, b"sum", sum_returned(reports))?;
    Ok(text)
}

fn push_line<I: Integer>(text: &mut Vec<u8>, word: &[u8], number: I) -> Result<(), NoMemory>
    ensures { OnOk result (text.new.items ≡ text.old.items ++ summary_line word.now (I.text number)) }
{
    let mut buffer = Buffer::new();
    text.extend_from_slice(word)?;
    text.extend_from_slice(b" ")?;
    text.extend_from_slice(buffer.format(number).as_bytes())?;
    text.extend_from_slice(b"\n")?;
    Ok(())
}

fn count_returned(reports: &[Report]) -> usize
    ensures { result ≡ length (returned reports.now) }
{
    let mut count = 0;
    for report in reports {
        count += usize::from(is_returned(report.end));
    }
    count
}

fn is_returned(end: End) -> bool
    ensures { result ≡ is_some (value_of_end end) }
{
    matches!(end, End::Returned(_))
}

// Fewer than 2^64 reports have fewer than 2^64 prints each, so the count is below 2^128.
fn count_prints(reports: &[Report]) -> u128
    ensures { result ≡ print_count reports.now }
{
    let mut count = 0;
    for report in reports {
        count += prints_of(report) as u128;
    }
    count
}

fn prints_of(report: &Report) -> usize
    ensures { result ≡ length report.now.printed }
{
    report.printed.items().len()
}

fn sum_returned(reports: &[Report]) -> i64
    ensures { result ≡ wrap (total (returned reports.now)) }
{
    let mut sum = 0;
    for report in reports {
        sum = sum_with(sum, report.end);
    }
    sum
}

// The sum with the value that was returned, or as it is where none was.
fn sum_with(sum: i64, end: End) -> i64
    ensures { MatchOption (value_of_end end) (result ≡ sum) (λ value. result ≡ wrap (sum +ℤ value)) }
{
    match end {
        End::Returned(value) => sum.wrapping_add(value),
        _ => sum,
    }
}
