//! The functions of a generated program.

ghost use Rattle.std.specs.Prelude.{◌≡◌, ◌<◌, ◌+◌, ◌%◌, pos, [], ◌∷◌, ◌++◌, IfOk, OnOk, IsTrue};
ghost use Rattle.cj_ir.specs.Texts.{is_name};
ghost use Rattle.cj_ir.specs.declared.language.Instr.TheVariants.{Op, Cond, Store, Print};
ghost use Rattle.cj_bench.specs.Generated.{drawn, after, reg, to, line, lines_of, eighth_of, function_name, function_of, function_drawn, functions_drawn, register_names};

use crate::draws::Draws;
use cj_ir::{
    Expr, FunId, Function, Functions, Instr, Label, Line, Lines, Name, Names, NoMemory, Operand,
    Operands, Reg,
};
use itoa::Buffer;
use std::alloc::Global;

const FUNCTIONS: u32 = 32;

const LAST: u32 = 31;

const A: Reg = Reg(0);

const B: Reg = Reg(1);

const R: Reg = Reg(2);

const S: Reg = Reg(3);

const T: Reg = Reg(4);

/// What stands in a function's instructions: a factor from 1 to 97, a divisor from 2 to 90, a bound below 89, and a
/// cell below 64.
#[derive(Clone, Copy)]
struct Constants {
    factor: i64,
    divisor: i64,
    bound: i64,
    cell: i64,
}

/// The 32 functions, which draw four numbers each.
pub(crate) fn drawn_functions(alloc: Global, draws: &mut Draws) -> Result<Functions, NoMemory>
    ensures made { IfOk result (λ functions. functions ≡ functions_drawn 32 draws.old.state) }
    ensures next { OnOk result (draws.new.state ≡ after 128 draws.old.state) }
{
    let mut functions = Functions::new(alloc);
    for index in 0..FUNCTIONS {
        push_function(alloc, &mut functions, index, draws)?;
    }
    Ok(functions)
}

#[tactic(auto, unfolding(crate::specs::Generated::function_drawn))]
fn push_function(
    alloc: Global,
    functions: &mut Functions,
    index: u32,
    draws: &mut Draws,
) -> Result<(), NoMemory>
    requires { index < 32 }
    ensures more { OnOk result (functions.new ≡ functions.old ++ function_drawn index draws.old.state ∷ []) }
    ensures next { draws.new.state ≡ after 4 draws.old.state }
{
    let constants = draw_constants(draws);
    functions.push(function_of(alloc, index, constants)?)
}

#[tactic(auto, unfolding(crate::specs::Generated::after))]
fn draw_constants(draws: &mut Draws) -> Constants
    ensures factor { result.factor ≡ pos (drawn draws.old.state % 97 + 1) }
    ensures divisor { result.divisor ≡ pos (drawn (after 1 draws.old.state) % 89 + 2) }
    ensures bound { result.bound ≡ pos (drawn (after 2 draws.old.state) % 89) }
    ensures cell { result.cell ≡ pos (drawn (after 3 draws.old.state) % 64) }
    ensures next { draws.new.state ≡ after 4 draws.old.state }
{
    let factor = draws.below(97) + 1;
    let divisor = draws.below(89) + 2;
    let bound = draws.below(89);
    let cell = draws.below(64);
    Constants {
        factor: i64::from(factor),
        divisor: i64::from(divisor),
        bound: i64::from(bound),
        cell: i64::from(cell),
    }
}

#[tactic(auto, unfolding(crate::specs::Generated::function_of))]
fn function_of(alloc: Global, index: u32, constants: Constants) -> Result<Function, NoMemory>
    requires { index < 32 }
    ensures { IfOk result (λ function. function ≡ function_of index constants.factor constants.divisor constants.bound constants.cell) }
{
    let eighth = eighth_of(alloc, index, constants.cell)?;
    Ok(Function {
        name: function_name(alloc, index)?,
        params: 2,
        regs: register_names(alloc)?,
        code: lines_of(alloc, constants, eighth)?,
    })
}

#[tactic(auto, unfolding(crate::specs::Generated::function_name))]
fn function_name(alloc: Global, index: u32) -> Result<Name, NoMemory>
    requires { index < 32 }
    ensures { IfOk result (λ name. name ≡ function_name index) }
{
    let mut buffer = Buffer::new();
    let mut bytes = Vec::from_slice(alloc, b"f")?;
    bytes.extend_from_slice(buffer.format(index).as_bytes())?;
    name_of(alloc, bytes.as_slice())
}

fn register_names(alloc: Global) -> Result<Names, NoMemory>
    ensures { IfOk result (λ names. names ≡ register_names) }
{
    let mut names = Names::new(alloc);
    names.push(name_of(alloc, b"a")?)?;
    names.push(name_of(alloc, b"b")?)?;
    names.push(name_of(alloc, b"r")?)?;
    names.push(name_of(alloc, b"s")?)?;
    names.push(name_of(alloc, b"t")?)?;
    Ok(names)
}

fn name_of(alloc: Global, bytes: &[u8]) -> Result<Name, NoMemory>
    requires { IsTrue (is_name bytes.now) }
    ensures { IfOk result (λ name. name ≡ bytes.now) }
{
    match Name::of(alloc, bytes)? {
        Some(name) => Ok(name),
        None => unreachable!(),
    }
}

// A call of the next function, and in the last one a load of the cell.
#[tactic(auto, unfolding(crate::specs::Generated::eighth_of))]
fn eighth_of(alloc: Global, index: u32, cell: i64) -> Result<Instr, NoMemory>
    requires { index < 32 }
    ensures { IfOk result (λ instr. instr ≡ eighth_of index cell) }
{
    if index == LAST {
        return Ok(Instr::Load {
            dest: R,
            address: Operand::Const(cell),
            next: to(9),
        });
    }
    let mut args = Operands::new(alloc);
    args.push(reg(S))?;
    args.push(reg(B))?;
    Ok(Instr::Call {
        dest: R,
        function: FunId(index + 1),
        args,
        next: to(9),
    })
}

#[tactic(auto, unfolding(crate::specs::Generated::lines_of))]
fn lines_of(alloc: Global, constants: Constants, eighth: Instr) -> Result<Lines, NoMemory>
    ensures { IfOk result (λ code. code ≡ lines_of constants.factor constants.divisor constants.bound constants.cell eighth) }
{
    let factor = Operand::Const(constants.factor);
    let divisor = Operand::Const(constants.divisor);
    let bound = Operand::Const(constants.bound);
    let cell = Operand::Const(constants.cell);
    let mut code = Lines::new(alloc);
    push_line(&mut code, 1, op(R, Expr::Mul(reg(A), factor), 2))?;
    push_line(&mut code, 2, op(S, Expr::Rem(reg(R), divisor), 3))?;
    push_line(&mut code, 3, op(T, Expr::Lt(reg(S), bound), 4))?;
    push_line(&mut code, 4, cond(T, 5, 6))?;
    push_line(&mut code, 5, op(S, Expr::Add(reg(S), reg(B)), 7))?;
    push_line(&mut code, 6, op(S, Expr::Sub(reg(S), reg(B)), 7))?;
    push_line(&mut code, 7, store(cell, S, 8))?;
    push_line(&mut code, 8, eighth)?;
    push_line(&mut code, 9, print(R, 10))?;
    push_line(&mut code, 10, Instr::Return { value: reg(R) })?;
    Ok(code)
}

fn push_line(code: &mut Lines, number: u32, instr: Instr) -> Result<(), NoMemory>
    ensures { OnOk result (code.new ≡ code.old ++ line number instr ∷ []) }
{
    code.push(Line {
        name: number,
        instr,
    })
}

fn op(dest: Reg, expr: Expr, next: u32) -> Instr
    requires { 0 < next }
    ensures { result ≡ Op dest expr (to next) }
{
    Instr::Op {
        dest,
        expr,
        next: to(next),
    }
}

fn cond(test: Reg, then_to: u32, else_to: u32) -> Instr
    requires then_to { 0 < then_to }
    requires else_to { 0 < else_to }
    ensures { result ≡ Cond (reg test) (to then_to) (to else_to) }
{
    Instr::Cond {
        test: reg(test),
        then_to: to(then_to),
        else_to: to(else_to),
    }
}

fn store(address: Operand, value: Reg, next: u32) -> Instr
    requires { 0 < next }
    ensures { result ≡ Store address (reg value) (to next) }
{
    Instr::Store {
        address,
        value: reg(value),
        next: to(next),
    }
}

fn print(value: Reg, next: u32) -> Instr
    requires { 0 < next }
    ensures { result ≡ Print (reg value) (to next) }
{
    Instr::Print {
        value: reg(value),
        next: to(next),
    }
}

fn reg(register: Reg) -> Operand
    ensures { result ≡ reg register }
{
    Operand::Reg(register)
}

// The label of the line with that number, which count from 1.
fn to(number: u32) -> Label
    requires { 0 < number }
    ensures { result ≡ to number }
{
    Label(number - 1)
}
