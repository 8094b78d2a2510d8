//! Scripts as they are written.

ghost use Rattle.std.specs.Prelude.{◌≡◌, ◌++◌, slice_get, OnOk, flat_map, map, codes};
ghost use Rattle.std.specs.Fmt.{signed_decimal};
ghost use Rattle.cj_printer.specs.Pieces.{pieces_text, blank, gap_text};
ghost use Rattle.cj_printer.specs.declared.pieces.Gap.TheVariants.{Blank};
ghost use Rattle.cj_printer.specs.Canonical.{setup_pieces, call_pieces, script_pieces, edge_text, reg_in, label_in, word_pieces, value_piece, named_pieces};

use crate::names::{function_name, push_count, push_label, push_value, reg_name};
use crate::pieces::{Gap, push_piece};
use cj_ir::{Edge, FunId, Function, Label, NoMemory, Script, ScriptCall, Setup};

/// Appends a script, whose lines follow the word `calls`.
#[tactic(auto, unfolding(crate::specs::Canonical::script_pieces))]
pub fn push_script(
    text: &mut Vec<u8>,
    functions: &[Function],
    script: &Script,
) -> Result<(), NoMemory>
    ensures { OnOk result (text.new.items ≡ text.old.items ++ pieces_text (script_pieces functions.now script.now)) }
{
    push_piece(text, Gap::Feed, b"calls")?;
    push_setups(text, functions, script.setups.items())?;
    push_calls(text, functions, script.calls.items())
}

#[tactic(auto, using(crate::proofs::Loops::turn, crate::proofs::Loops::done))]
fn push_setups(text: &mut Vec<u8>, functions: &[Function], setups: &[Setup]) -> Result<(), NoMemory>
    ensures { OnOk result (text.new.items ≡ text.old.items ++ pieces_text (flat_map (setup_pieces functions.now) setups.now)) }
{
    for setup in setups {
        push_setup(text, functions, setup)?;
    }
    Ok(())
}

#[tactic(auto, unfolding(crate::specs::Canonical::setup_pieces))]
fn push_setup(text: &mut Vec<u8>, functions: &[Function], setup: &Setup) -> Result<(), NoMemory>
    ensures { OnOk result (text.new.items ≡ text.old.items ++ pieces_text (setup_pieces functions.now setup.now)) }
{
    match setup {
        Setup::Guess {
            function,
            param,
            value,
        } => {
            push_word(text, functions, b"guess", *function)?;
            push_piece(text, Gap::Blank, param_name(functions, *function, *param))?;
            push_value(text, Gap::Blank, *value)
        }
        Setup::Cold {
            function,
            label,
            edge,
        } => {
            push_word(text, functions, b"cold", *function)?;
            push_label_of(text, functions, *function, *label)?;
            push_piece(text, Gap::Blank, edge_name(*edge))
        }
        Setup::Warm { function, level } => {
            push_word(text, functions, b"warm", *function)?;
            push_count(text, Gap::Blank, u32::from(*level))
        }
    }
}

// The word of a line, and the function's name.
fn push_word(
    text: &mut Vec<u8>,
    functions: &[Function],
    word: &[u8],
    function: FunId,
) -> Result<(), NoMemory>
    ensures { OnOk result (text.new.items ≡ text.old.items ++ pieces_text (word_pieces functions.now word.now function)) }
{
    push_piece(text, Gap::Feed, word)?;
    push_piece(text, Gap::Blank, function_name(functions, function))
}

fn param_name(functions: &[Function], function: FunId, param: u32) -> &[u8]
    ensures { result.now ≡ reg_in (slice_get functions.now function.0) param }
{
    match functions.get(function.0 as usize) {
        Some(function) => reg_name(function.regs.items(), param),
        None => &[],
    }
}

fn push_label_of(
    text: &mut Vec<u8>,
    functions: &[Function],
    function: FunId,
    label: Label,
) -> Result<(), NoMemory>
    ensures { OnOk result (text.new.items ≡ text.old.items ++ (gap_text Blank ++ label_in (slice_get functions.now function.0) label)) }
{
    match functions.get(function.0 as usize) {
        Some(function) => push_label(text, Gap::Blank, function, label),
        None => push_piece(text, Gap::Blank, &[]),
    }
}

fn edge_name(edge: Edge) -> &'static [u8]
    ensures { result.now ≡ edge_text edge }
{
    match edge {
        Edge::Then => b"then",
        Edge::Else => b"else",
    }
}

#[tactic(auto, using(crate::proofs::Loops::turn, crate::proofs::Loops::done))]
fn push_calls(
    text: &mut Vec<u8>,
    functions: &[Function],
    calls: &[ScriptCall],
) -> Result<(), NoMemory>
    ensures { OnOk result (text.new.items ≡ text.old.items ++ pieces_text (flat_map (call_pieces functions.now) calls.now)) }
{
    for call in calls {
        push_call(text, functions, call)?;
    }
    Ok(())
}

#[tactic(auto, unfolding(crate::specs::Canonical::call_pieces))]
fn push_call(text: &mut Vec<u8>, functions: &[Function], call: &ScriptCall) -> Result<(), NoMemory>
    ensures { OnOk result (text.new.items ≡ text.old.items ++ pieces_text (call_pieces functions.now call.now)) }
{
    push_word(text, functions, b"call", call.function)?;
    push_values(text, call.args.items())?;
    push_named(text, b"memory", call.cells)?;
    push_named(text, b"limit", call.limit)
}

fn push_values(text: &mut Vec<u8>, values: &[i64]) -> Result<(), NoMemory>
    ensures { OnOk result (text.new.items ≡ text.old.items ++ pieces_text (map value_piece values.now)) }
{
    for value in values {
        push_value(text, Gap::Blank, *value)?;
    }
    Ok(())
}

// A word and its number.
fn push_named(text: &mut Vec<u8>, word: &[u8], number: u32) -> Result<(), NoMemory>
    ensures { OnOk result (text.new.items ≡ text.old.items ++ pieces_text (named_pieces word.now number)) }
{
    push_piece(text, Gap::Blank, word)?;
    push_count(text, Gap::Blank, number)
}
