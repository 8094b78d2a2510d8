//! Names and numbers as they are written.

ghost use Rattle.std.specs.Prelude.{◌≡◌, ◌++◌, slice_get, OnOk, codes, decimal, flat_map, List, map, None, Some};
ghost use Rattle.std.specs.Fmt.{signed_decimal};
ghost use Rattle.cj_printer.specs.Pieces.{gap_text, pieces_text, listed, after_comma};
ghost use Rattle.cj_printer.specs.Canonical.{reg_text, function_text, label_text, operand_text, text_or_none, name_of, number_text};

use crate::pieces::{Gap, push_piece};
use cj_ir::{FunId, Function, Label, Name, NoMemory, Operand};
use itoa::Buffer;

/// The name of a register; none where there is no such register.
pub fn reg_name(names: &[Name], reg: u32) -> &[u8]
    ensures { result.now ≡ text_or_none (slice_get names.now reg) }
{
    match names.get(reg as usize) {
        Some(name) => name.bytes(),
        None => &[],
    }
}

/// The name of a function; none where there is no such function.
pub fn function_name(functions: &[Function], function: FunId) -> &[u8]
    ensures { result.now ≡ function_text functions.now function }
{
    match functions.get(function.0 as usize) {
        Some(function) => function.name.bytes(),
        None => &[],
    }
}

/// Appends the number of a label; none where there is no such label.
pub fn push_label(
    text: &mut Vec<u8>,
    gap: Gap,
    function: &Function,
    label: Label,
) -> Result<(), NoMemory>
    ensures { OnOk result (text.new.items ≡ text.old.items ++ (gap_text gap ++ label_text function.now label)) }
{
    match function.code.items().get(label.0 as usize) {
        Some(line) => push_count(text, gap, line.name),
        None => push_piece(text, gap, &[]),
    }
}

pub fn push_operand(
    text: &mut Vec<u8>,
    gap: Gap,
    function: &Function,
    operand: &Operand,
) -> Result<(), NoMemory>
    ensures { OnOk result (text.new.items ≡ text.old.items ++ (gap_text gap ++ operand_text function.now operand.now)) }
{
    match operand {
        Operand::Reg(reg) => push_piece(text, gap, reg_name(function.regs.items(), reg.0)),
        Operand::Const(value) => push_value(text, gap, *value),
    }
}

pub fn push_value(text: &mut Vec<u8>, gap: Gap, value: i64) -> Result<(), NoMemory>
    ensures { OnOk result (text.new.items ≡ text.old.items ++ (gap_text gap ++ signed_decimal value)) }
{
    let mut buffer = Buffer::new();
    push_piece(text, gap, buffer.format(value).as_bytes())
}

pub fn push_count(text: &mut Vec<u8>, gap: Gap, count: u32) -> Result<(), NoMemory>
    ensures { OnOk result (text.new.items ≡ text.old.items ++ (gap_text gap ++ decimal count)) }
{
    let mut buffer = Buffer::new();
    push_piece(text, gap, buffer.format(count).as_bytes())
}

/// Appends names, each behind a comma.
#[tactic(auto, using(crate::proofs::Loops::turn, crate::proofs::Loops::done))]
pub fn push_more_names(text: &mut Vec<u8>, names: &[Name]) -> Result<(), NoMemory>
    ensures { OnOk result (text.new.items ≡ text.old.items ++ pieces_text (flat_map after_comma names.now)) }
{
    for name in names {
        push_after_comma(text, name.bytes())?;
    }
    Ok(())
}

/// Appends names with commas between them.
pub fn push_names(text: &mut Vec<u8>, names: &[Name]) -> Result<(), NoMemory>
    ensures { OnOk result (text.new.items ≡ text.old.items ++ pieces_text (listed names.now)) }
{
    match names {
        [] => Ok(()),
        [first, more @ ..] => {
            push_piece(text, Gap::Glued, first.bytes())?;
            push_more_names(text, more)
        }
    }
}

fn push_after_comma(text: &mut Vec<u8>, name: &[u8]) -> Result<(), NoMemory>
    ensures { OnOk result (text.new.items ≡ text.old.items ++ pieces_text (after_comma name.now)) }
{
    push_piece(text, Gap::Glued, b",")?;
    push_piece(text, Gap::Blank, name)
}
