//! The text of reports.

ghost use Rattle.std.specs.Prelude.{◌≡◌, ◌++◌, ℕ, IfOk, OnOk, codes, decimal};
ghost use Rattle.std.specs.Fmt.{signed_decimal};
ghost use Rattle.cj_ir.specs.Program.{instr_at};
ghost use Rattle.cj_calls.specs.Output.{fail_text, prints_text, end_text, stats_text, report_text, reports_text};

use crate::report::{Report, Reports};
use cj_base::End;
use cj_ir::{Checked, FunId, Instr, Label, NoMemory, Program};
use itoa::Buffer;
use std::alloc::Global;

/// The text of the reports: for the k-th one, from 1, the line `call k`, a line for each print, and a line for
/// the end, which is `return v`, `fail "text"`, `fault address a`, `fault divide` or `turn limit`; with `stats`
/// also `turns T base B fails F`. Each line ends with a line feed.
pub fn text_of(
    alloc: Global,
    checked: &Checked,
    reports: &Reports,
    stats: bool,
) -> Result<Vec<u8>, NoMemory>
    ensures { IfOk result (λ text. text.items ≡ reports_text checked.now reports.now stats) }
{
    let mut text = Vec::new(alloc);
    for (place, report) in reports.items().iter().enumerate() {
        push_report(&mut text, checked.program(), place + 1, report, stats)?;
    }
    Ok(text)
}

/// The block of one report, which is the one of that number: the lines that `text_of` writes for it.
pub fn block_of(
    alloc: Global,
    checked: &Checked,
    number: usize,
    report: &Report,
    stats: bool,
) -> Result<Vec<u8>, NoMemory>
    ensures { IfOk result (λ text. text.items ≡ report_text checked.now stats number report.now) }
{
    let mut text = Vec::new(alloc);
    push_report(&mut text, checked.program(), number, report, stats)?;
    Ok(text)
}

#[tactic(auto, unfolding(crate::specs::Output::report_text))]
fn push_report(
    text: &mut Vec<u8>,
    program: &Program,
    number: usize,
    report: &Report,
    stats: bool,
) -> Result<(), NoMemory>
    ensures { OnOk result (text.new.items ≡ text.old.items ++ report_text program.now stats number report.now) }
{
    push_bytes(text, b"call ")?;
    push_count(text, number as u64)?;
    push_bytes(text, b"\n")?;
    push_prints(text, report.printed.items())?;
    push_end(text, program, report.end)?;
    if stats {
        push_stats(text, report)?;
    }
    Ok(())
}

fn push_prints(text: &mut Vec<u8>, printed: &[i64]) -> Result<(), NoMemory>
    ensures { OnOk result (text.new.items ≡ text.old.items ++ prints_text printed.now) }
{
    for value in printed {
        push_print(text, *value)?;
    }
    Ok(())
}

fn push_print(text: &mut Vec<u8>, value: i64) -> Result<(), NoMemory>
    ensures { OnOk result (text.new.items ≡ text.old.items ++ (signed_decimal value ++ codes "\n")) }
{
    push_value(text, value)?;
    push_bytes(text, b"\n")
}

#[tactic(auto, unfolding(crate::specs::Output::end_text))]
fn push_end(text: &mut Vec<u8>, program: &Program, end: End) -> Result<(), NoMemory>
    ensures { OnOk result (text.new.items ≡ text.old.items ++ end_text program.now end) }
{
    match end {
        End::Returned(value) => push_valued(text, b"return ", value),
        End::Failed { function, label } => {
            push_bytes(text, b"fail \"")?;
            push_bytes(text, fail_text(program, function, label))?;
            push_bytes(text, b"\"\n")
        }
        End::Address(address) => push_valued(text, b"fault address ", address),
        End::Divide => push_bytes(text, b"fault divide\n"),
        End::TurnLimit => push_bytes(text, b"turn limit\n"),
    }
}

#[tactic(auto, unfolding(crate::specs::Output::stats_text))]
fn push_stats(text: &mut Vec<u8>, report: &Report) -> Result<(), NoMemory>
    ensures { OnOk result (text.new.items ≡ text.old.items ++ stats_text report.now) }
{
    push_bytes(text, b"turns ")?;
    push_count(text, report.turns)?;
    push_bytes(text, b" base ")?;
    push_count(text, report.base_turns)?;
    push_bytes(text, b" fails ")?;
    push_count(text, report.fails)?;
    push_bytes(text, b"\n")
}

// A line of these words and a value.
fn push_valued(text: &mut Vec<u8>, words: &[u8], value: i64) -> Result<(), NoMemory>
    ensures { OnOk result (text.new.items ≡ text.old.items ++ (words.now ++ signed_decimal value ++ codes "\n")) }
{
    push_bytes(text, words)?;
    push_value(text, value)?;
    push_bytes(text, b"\n")
}

// The text of the `fail` at a place, and none where no `fail` stands there.
fn fail_text(program: &Program, function: FunId, label: Label) -> &[u8]
    ensures { result.now ≡ fail_text (instr_at program.now function label) }
{
    let Some(function) = program.functions.items().get(function.0 as usize) else {
        return &[];
    };
    match function.code.items().get(label.0 as usize) {
        Some(line) => match &line.instr {
            Instr::Fail { text } => text.bytes(),
            _ => &[],
        },
        None => &[],
    }
}

fn push_value(text: &mut Vec<u8>, value: i64) -> Result<(), NoMemory>
    ensures { OnOk result (text.new.items ≡ text.old.items ++ signed_decimal value) }
{
    let mut buffer = Buffer::new();
    push_bytes(text, buffer.format(value).as_bytes())
}

fn push_count(text: &mut Vec<u8>, count: u64) -> Result<(), NoMemory>
    ensures { OnOk result (text.new.items ≡ text.old.items ++ decimal count) }
{
    let mut buffer = Buffer::new();
    push_bytes(text, buffer.format(count).as_bytes())
}

fn push_bytes(text: &mut Vec<u8>, bytes: &[u8]) -> Result<(), NoMemory>
    ensures { OnOk result (text.new.items ≡ text.old.items ++ bytes.now) }
{
    text.extend_from_slice(bytes)?;
    Ok(())
}
