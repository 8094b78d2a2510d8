//! Instructions as they are written.

ghost use Rattle.std.specs.Prelude.{◌≡◌, ◌++◌, [], ◌∷◌, OnOk, codes, flat_map, map};
ghost use Rattle.cj_printer.specs.Pieces.{pieces_text, blank, glued, after_comma, listed};
ghost use Rattle.cj_printer.specs.Canonical.{target_pieces, binary_pieces, expr_pieces, assign_pieces, cell_pieces, callee_pieces, instr_pieces, line_pieces, operand_text, label_text};

use crate::names::{function_name, push_count, push_label, push_operand, reg_name};
use crate::pieces::{Gap, push_piece};
use cj_ir::{Expr, FunId, Function, Instr, Label, Line, NoMemory, Operand, Reg};

/// Appends a line: its number, a colon and its instruction.
#[tactic(auto, unfolding(crate::specs::Canonical::line_pieces))]
pub fn push_line(
    text: &mut Vec<u8>,
    functions: &[Function],
    function: &Function,
    line: &Line,
) -> Result<(), NoMemory>
    ensures { OnOk result (text.new.items ≡ text.old.items ++ pieces_text (line_pieces functions.now function.now line.now)) }
{
    push_count(text, Gap::Feed, line.name)?;
    push_piece(text, Gap::Glued, b":")?;
    push_instr(text, functions, function, &line.instr)
}

#[tactic(auto, unfolding(crate::specs::Canonical::instr_pieces))]
fn push_instr(
    text: &mut Vec<u8>,
    functions: &[Function],
    function: &Function,
    instr: &Instr,
) -> Result<(), NoMemory>
    ensures { OnOk result (text.new.items ≡ text.old.items ++ pieces_text (instr_pieces functions.now function.now instr.now)) }
{
    match instr {
        Instr::Nop { next } => {
            push_piece(text, Gap::Blank, b"nop")?;
            push_target(text, function, *next)
        }
        Instr::Op { dest, expr, next } => {
            push_assign(text, function, b"op", *dest)?;
            push_expr(text, function, expr)?;
            push_target(text, function, *next)
        }
        Instr::Cond {
            test,
            then_to,
            else_to,
        } => {
            push_piece(text, Gap::Blank, b"cond")?;
            push_operand(text, Gap::Blank, function, test)?;
            push_targets(text, function, *then_to, *else_to)
        }
        Instr::Call {
            dest,
            function: callee,
            args,
            next,
        } => {
            push_assign(text, function, b"call", *dest)?;
            push_callee(text, functions, function, *callee, args.items())?;
            push_target(text, function, *next)
        }
        Instr::Return { value } => {
            push_piece(text, Gap::Blank, b"return")?;
            push_operand(text, Gap::Blank, function, value)
        }
        Instr::Print { value, next } => {
            push_piece(text, Gap::Blank, b"print")?;
            push_operand(text, Gap::Blank, function, value)?;
            push_target(text, function, *next)
        }
        Instr::Load {
            dest,
            address,
            next,
        } => push_load(text, function, *dest, address, *next),
        Instr::Store {
            address,
            value,
            next,
        } => push_store(text, function, address, value, *next),
        Instr::Fail { text: words } => push_fail(text, words.bytes()),
    }
}

// `-> L`
fn push_target(text: &mut Vec<u8>, function: &Function, next: Label) -> Result<(), NoMemory>
    ensures { OnOk result (text.new.items ≡ text.old.items ++ pieces_text (target_pieces function.now next)) }
{
    push_piece(text, Gap::Blank, b"->")?;
    push_label(text, Gap::Blank, function, next)
}

// `-> L, M`
fn push_targets(
    text: &mut Vec<u8>,
    function: &Function,
    then_to: Label,
    else_to: Label,
) -> Result<(), NoMemory>
    ensures { OnOk result (text.new.items ≡ text.old.items ++ pieces_text (target_pieces function.now then_to ++ after_comma (label_text function.now else_to))) }
{
    push_target(text, function, then_to)?;
    push_piece(text, Gap::Glued, b",")?;
    push_label(text, Gap::Blank, function, else_to)
}

// `word r =`
fn push_assign(
    text: &mut Vec<u8>,
    function: &Function,
    word: &[u8],
    dest: Reg,
) -> Result<(), NoMemory>
    ensures { OnOk result (text.new.items ≡ text.old.items ++ pieces_text (assign_pieces function.now word.now dest)) }
{
    push_piece(text, Gap::Blank, word)?;
    push_piece(text, Gap::Blank, reg_name(function.regs.items(), dest.0))?;
    push_piece(text, Gap::Blank, b"=")
}

// `[a]`
fn push_cell(text: &mut Vec<u8>, function: &Function, address: &Operand) -> Result<(), NoMemory>
    ensures { OnOk result (text.new.items ≡ text.old.items ++ pieces_text (cell_pieces function.now address.now)) }
{
    push_piece(text, Gap::Blank, b"[")?;
    push_operand(text, Gap::Glued, function, address)?;
    push_piece(text, Gap::Glued, b"]")
}

// `load r = [a] -> L`
fn push_load(
    text: &mut Vec<u8>,
    function: &Function,
    dest: Reg,
    address: &Operand,
    next: Label,
) -> Result<(), NoMemory>
    ensures { OnOk result (text.new.items ≡ text.old.items ++ pieces_text (assign_pieces function.now (codes "load") dest ++ cell_pieces function.now address.now ++ target_pieces function.now next)) }
{
    push_assign(text, function, b"load", dest)?;
    push_cell(text, function, address)?;
    push_target(text, function, next)
}

// `store [a] = v -> L`
fn push_store(
    text: &mut Vec<u8>,
    function: &Function,
    address: &Operand,
    value: &Operand,
    next: Label,
) -> Result<(), NoMemory>
    ensures { OnOk result (text.new.items ≡ text.old.items ++ pieces_text (blank (codes "store") ∷ cell_pieces function.now address.now ++ blank (codes "=") ∷ blank (operand_text function.now value.now) ∷ target_pieces function.now next)) }
{
    push_piece(text, Gap::Blank, b"store")?;
    push_cell(text, function, address)?;
    push_piece(text, Gap::Blank, b"=")?;
    push_operand(text, Gap::Blank, function, value)?;
    push_target(text, function, next)
}

// `f(a, b)`
fn push_callee(
    text: &mut Vec<u8>,
    functions: &[Function],
    function: &Function,
    callee: FunId,
    args: &[Operand],
) -> Result<(), NoMemory>
    ensures { OnOk result (text.new.items ≡ text.old.items ++ pieces_text (callee_pieces functions.now function.now callee args.now)) }
{
    push_piece(text, Gap::Blank, function_name(functions, callee))?;
    push_piece(text, Gap::Glued, b"(")?;
    push_operands(text, function, args)?;
    push_piece(text, Gap::Glued, b")")
}

fn push_operands(text: &mut Vec<u8>, function: &Function, args: &[Operand]) -> Result<(), NoMemory>
    ensures { OnOk result (text.new.items ≡ text.old.items ++ pieces_text (listed (map (operand_text function.now) args.now))) }
{
    match args {
        [] => Ok(()),
        [first, more @ ..] => {
            push_operand(text, Gap::Glued, function, first)?;
            push_more_operands(text, function, more)
        }
    }
}

#[tactic(auto, using(crate::proofs::Loops::turn_mapped, crate::proofs::Loops::done_mapped))]
fn push_more_operands(
    text: &mut Vec<u8>,
    function: &Function,
    args: &[Operand],
) -> Result<(), NoMemory>
    ensures { OnOk result (text.new.items ≡ text.old.items ++ pieces_text (flat_map after_comma (map (operand_text function.now) args.now))) }
{
    for arg in args {
        push_next_operand(text, function, arg)?;
    }
    Ok(())
}

fn push_next_operand(text: &mut Vec<u8>, function: &Function, arg: &Operand) -> Result<(), NoMemory>
    ensures { OnOk result (text.new.items ≡ text.old.items ++ pieces_text (after_comma (operand_text function.now arg.now))) }
{
    push_piece(text, Gap::Glued, b",")?;
    push_operand(text, Gap::Blank, function, arg)
}

fn push_fail(text: &mut Vec<u8>, words: &[u8]) -> Result<(), NoMemory>
    ensures { OnOk result (text.new.items ≡ text.old.items ++ pieces_text (blank (codes "fail") ∷ blank (codes "\"" ++ words.now ++ codes "\"") ∷ [])) }
{
    push_piece(text, Gap::Blank, b"fail")?;
    push_piece(text, Gap::Blank, b"\"")?;
    push_piece(text, Gap::Glued, words)?;
    push_piece(text, Gap::Glued, b"\"")
}

#[tactic(auto, unfolding(crate::specs::Canonical::expr_pieces))]
fn push_expr(text: &mut Vec<u8>, function: &Function, expr: &Expr) -> Result<(), NoMemory>
    ensures { OnOk result (text.new.items ≡ text.old.items ++ pieces_text (expr_pieces function.now expr.now)) }
{
    match expr {
        Expr::Copy(value) => push_operand(text, Gap::Blank, function, value),
        Expr::Neg(value) => push_unary(text, function, b"neg", value),
        Expr::Eqz(value) => push_unary(text, function, b"eqz", value),
        Expr::Add(left, right) => push_binary(text, function, left, b"+", right),
        Expr::Sub(left, right) => push_binary(text, function, left, b"-", right),
        Expr::Mul(left, right) => push_binary(text, function, left, b"*", right),
        Expr::Div(left, right) => push_binary(text, function, left, b"/", right),
        Expr::Rem(left, right) => push_binary(text, function, left, b"%", right),
        Expr::Eq(left, right) => push_binary(text, function, left, b"=", right),
        Expr::Lt(left, right) => push_binary(text, function, left, b"<", right),
    }
}

fn push_unary(
    text: &mut Vec<u8>,
    function: &Function,
    operator: &[u8],
    value: &Operand,
) -> Result<(), NoMemory>
    ensures { OnOk result (text.new.items ≡ text.old.items ++ pieces_text (blank operator.now ∷ blank (operand_text function.now value.now) ∷ [])) }
{
    push_piece(text, Gap::Blank, operator)?;
    push_operand(text, Gap::Blank, function, value)
}

fn push_binary(
    text: &mut Vec<u8>,
    function: &Function,
    left: &Operand,
    operator: &[u8],
    right: &Operand,
) -> Result<(), NoMemory>
    ensures { OnOk result (text.new.items ≡ text.old.items ++ pieces_text (binary_pieces function.now left.now operator.now right.now)) }
{
    push_operand(text, Gap::Blank, function, left)?;
    push_piece(text, Gap::Blank, operator)?;
    push_operand(text, Gap::Blank, function, right)
}
