//! What the types of a program and a script hold of their parts, told of the whole. These functions visit each part,
//! and do nothing else.

ghost use Rattle.std.specs.Prelude.{◌≡◌, true, All};
ghost use Rattle.cj_ir.specs.Texts.{is_fail_text};
ghost use Rattle.cj_text.specs.Written.{IsName, IsValue, IsOperandWritten, IsExprWritten, IsInstrWritten, IsFunctionWritten, IsProgramWritten, IsSetupWritten, IsCallWritten, IsScriptWritten};

use cj_ir::{Expr, Function, Instr, Line, Name, Operand, Program, Script, ScriptCall, Setup, Text};

fn visit_value(value: i64)
    ensures { IsValue value }
{
    let _value = value;
}

fn visit_values(values: &[i64])
    ensures { All IsValue values.now }
{
    for value in values {
        visit_value(*value);
    }
}

fn visit_name(name: &Name)
    ensures { IsName name.now }
{
    let _bytes = name.bytes();
}

fn visit_names(names: &[Name])
    ensures { All IsName names.now }
{
    for name in names {
        visit_name(name);
    }
}

fn visit_text(text: &Text)
    ensures { is_fail_text text.now ≡ true }
{
    let _bytes = text.bytes();
}

fn visit_operand(operand: &Operand)
    ensures { IsOperandWritten operand.now }
{
    match operand {
        Operand::Reg(_reg) => {}
        Operand::Const(value) => visit_value(*value),
    }
}

fn visit_operands(operands: &[Operand])
    ensures { All IsOperandWritten operands.now }
{
    for operand in operands {
        visit_operand(operand);
    }
}

fn visit_pair(left: &Operand, right: &Operand)
    ensures left { IsOperandWritten left.now }
    ensures right { IsOperandWritten right.now }
{
    visit_operand(left);
    visit_operand(right);
}

fn visit_expr(expr: &Expr)
    ensures { IsExprWritten expr.now }
{
    match expr {
        Expr::Copy(value) | Expr::Neg(value) | Expr::Eqz(value) => visit_operand(value),
        Expr::Add(left, right)
        | Expr::Sub(left, right)
        | Expr::Mul(left, right)
        | Expr::Div(left, right)
        | Expr::Rem(left, right)
        | Expr::Eq(left, right)
        | Expr::Lt(left, right) => visit_pair(left, right),
    }
}

fn visit_instr(instr: &Instr)
    ensures { IsInstrWritten instr.now }
{
    match instr {
        Instr::Nop { .. } => {}
        Instr::Op { expr, .. } => visit_expr(expr),
        Instr::Cond { test, .. } => visit_operand(test),
        Instr::Call { args, .. } => visit_operands(args.items()),
        Instr::Return { value } => visit_operand(value),
        Instr::Print { value, .. } => visit_operand(value),
        Instr::Load { address, .. } => visit_operand(address),
        Instr::Store { address, value, .. } => visit_pair(address, value),
        Instr::Fail { text } => visit_text(text),
    }
}

fn visit_lines(lines: &[Line])
    ensures { All (λ line. IsInstrWritten line.instr) lines.now }
{
    for line in lines {
        visit_instr(&line.instr);
    }
}

fn visit_function(function: &Function)
    ensures { IsFunctionWritten function.now }
{
    visit_name(&function.name);
    visit_names(function.regs.items());
    visit_lines(function.code.items());
}

fn visit_functions(functions: &[Function])
    ensures { All IsFunctionWritten functions.now }
{
    for function in functions {
        visit_function(function);
    }
}

/// All parts of a program.
pub(crate) fn visit_program(program: &Program)
    ensures { IsProgramWritten program.now }
{
    visit_functions(program.functions.items());
}

fn visit_setup(setup: &Setup)
    ensures { IsSetupWritten setup.now }
{
    match setup {
        Setup::Guess { value, .. } => visit_value(*value),
        Setup::Cold { .. } | Setup::Warm { .. } => {}
    }
}

fn visit_setups(setups: &[Setup])
    ensures { All IsSetupWritten setups.now }
{
    for setup in setups {
        visit_setup(setup);
    }
}

fn visit_calls(calls: &[ScriptCall])
    ensures { All IsCallWritten calls.now }
{
    for call in calls {
        visit_values(call.args.items());
    }
}

/// All parts of a script.
pub(crate) fn visit_script(script: &Script)
    ensures { IsScriptWritten script.now }
{
    visit_setups(script.setups.items());
    visit_calls(script.calls.items());
}
