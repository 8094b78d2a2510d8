//! Functions as they are written.

ghost use Rattle.std.specs.Prelude.{◌≡◌, ◌++◌, drop, OnOk, flat_map, codes};
ghost use Rattle.cj_printer.specs.Pieces.{pieces_text};
ghost use Rattle.cj_printer.specs.Canonical.{others_pieces, head_pieces, function_pieces, line_pieces, more_pieces, functions_pieces};

use crate::instructions::push_line;
use crate::names::{push_more_names, push_names};
use crate::pieces::{Gap, push_piece};
use cj_ir::{Function, Name, NoMemory};

/// Appends functions, each of which begins a line, but for the first one.
pub fn push_functions(text: &mut Vec<u8>, functions: &[Function]) -> Result<(), NoMemory>
    ensures { OnOk result (text.new.items ≡ text.old.items ++ pieces_text (functions_pieces functions.now functions.now)) }
{
    match functions {
        [] => Ok(()),
        [first, more @ ..] => {
            push_piece(text, Gap::Glued, b"fun")?;
            push_function(text, functions, first)?;
            push_more(text, functions, more)
        }
    }
}

#[tactic(auto, using(crate::proofs::Loops::turn, crate::proofs::Loops::done))]
fn push_more(text: &mut Vec<u8>, functions: &[Function], more: &[Function]) -> Result<(), NoMemory>
    ensures { OnOk result (text.new.items ≡ text.old.items ++ pieces_text (flat_map (more_pieces functions.now) more.now)) }
{
    for function in more {
        push_next(text, functions, function)?;
    }
    Ok(())
}

fn push_next(
    text: &mut Vec<u8>,
    functions: &[Function],
    function: &Function,
) -> Result<(), NoMemory>
    ensures { OnOk result (text.new.items ≡ text.old.items ++ pieces_text (more_pieces functions.now function.now)) }
{
    push_piece(text, Gap::Feed, b"fun")?;
    push_function(text, functions, function)
}

// A function behind its word.
#[tactic(auto, unfolding(crate::specs::Canonical::function_pieces))]
fn push_function(
    text: &mut Vec<u8>,
    functions: &[Function],
    function: &Function,
) -> Result<(), NoMemory>
    ensures { OnOk result (text.new.items ≡ text.old.items ++ pieces_text (function_pieces functions.now function.now)) }
{
    push_head(text, function)?;
    push_lines(text, functions, function)?;
    push_piece(text, Gap::Feed, b"}")
}

// `NAME(P, P; R, R) {`
fn push_head(text: &mut Vec<u8>, function: &Function) -> Result<(), NoMemory>
    ensures { OnOk result (text.new.items ≡ text.old.items ++ pieces_text (head_pieces function.now)) }
{
    let names = function.regs.items();
    let (params, others) = names.split_at(names.len().min(function.params as usize));
    push_piece(text, Gap::Blank, function.name.bytes())?;
    push_piece(text, Gap::Glued, b"(")?;
    push_names(text, params)?;
    push_others(text, others)?;
    push_piece(text, Gap::Glued, b")")?;
    push_piece(text, Gap::Blank, b"{")
}

fn push_others(text: &mut Vec<u8>, names: &[Name]) -> Result<(), NoMemory>
    ensures { OnOk result (text.new.items ≡ text.old.items ++ pieces_text (others_pieces names.now)) }
{
    match names {
        [] => Ok(()),
        [first, more @ ..] => {
            push_piece(text, Gap::Glued, b";")?;
            push_piece(text, Gap::Blank, first.bytes())?;
            push_more_names(text, more)
        }
    }
}

#[tactic(auto, using(crate::proofs::Loops::turn, crate::proofs::Loops::done))]
fn push_lines(
    text: &mut Vec<u8>,
    functions: &[Function],
    function: &Function,
) -> Result<(), NoMemory>
    ensures { OnOk result (text.new.items ≡ text.old.items ++ pieces_text (flat_map (line_pieces functions.now function.now) function.now.code)) }
{
    for line in function.code.items() {
        push_line(text, functions, function, line)?;
    }
    Ok(())
}
