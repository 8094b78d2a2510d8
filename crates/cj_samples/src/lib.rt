//! Small programs that tests are about, and the parts that such programs are put together from.
#![tactic(auto)]

ghost use Rattle.std.specs.Prelude.{◌≡◌, ◌≢◌, [], ◌∷◌, map, All, IfOk, IfErr, Err, IsTrue, pos};
ghost use Rattle.cj_ir.specs.Texts.{is_name};
ghost use Rattle.cj_ir.specs.Verdicts.{program_verdict};
ghost use Rattle.cj_ir.specs.declared.checker.CheckError.TheVariants as offences;
ghost use Rattle.cj_ir.specs.declared.language.Instr.TheVariants.{Op, Cond, Call, Print};
ghost use Rattle.cj_samples.specs.Samples.{lines_of, function_of, increment, constant_zero, double, recursion, jump};

use cj_ir::{
    CheckError, Checked, Duplicate, Expr, FunId, Function, Functions, Instr, Label, Line, Lines,
    Name, Names, NoMemory, Operand, Program, Reg, ScriptCall, Sequence, check,
};
use std::alloc::Global;

/// The parameter of a sample.
pub const N: Operand = Operand::Reg(Reg(0));

/// The other register of a sample.
pub const R: Operand = Operand::Reg(Reg(1));

/// A list of those items.
pub fn list<T: Duplicate>(alloc: Global, items: &[T]) -> Result<Sequence<T>, NoMemory>
    ensures { IfOk result (λ list. list ≡ items.now) }
{
    let mut list = Sequence::new(alloc);
    for item in items {
        list.push(item.copy()?)?;
    }
    Ok(list)
}

/// A word that is a name, as one.
pub fn name(alloc: Global, word: &str) -> Result<Name, NoMemory>
    requires { IsTrue (is_name word.now) }
    ensures { IfOk result (λ name. name ≡ word.now) }
{
    match Name::of(alloc, word.as_bytes())? {
        Some(name) => Ok(name),
        None => unreachable!(),
    }
}

/// Words that are names, as such.
pub fn names(alloc: Global, words: &[&str]) -> Result<Names, NoMemory>
    requires { All (λ word. IsTrue (is_name word.now)) words.now }
    ensures { IfOk result (λ names. names ≡ map (λ word. word.now) words.now) }
{
    let mut names = Names::new(alloc);
    for word in words {
        names.push(name(alloc, word)?)?;
    }
    Ok(names)
}

/// The lines of those instructions, whose labels have the numbers 1, 2 and on, modulo 2^32.
#[tactic(auto, using(crate::proofs::SampleLemmas::lines_of_append))]
pub fn lines(alloc: Global, instrs: Vec<Instr>) -> Result<Lines, NoMemory>
    ensures { IfOk result (λ lines. lines ≡ lines_of instrs.items) }
{
    let mut lines = Lines::new(alloc);
    let mut name = 0u32;
    for instr in instrs {
        name = name.wrapping_add(1);
        lines.push(Line { name, instr })?;
    }
    Ok(lines)
}

/// A function of one parameter, `n`, and one more register, `r`.
#[tactic(auto, unfolding(crate::specs::Samples::function_of))]
pub fn function(alloc: Global, word: &str, code: Lines) -> Result<Function, NoMemory>
    requires { IsTrue (is_name word.now) }
    ensures { IfOk result (λ f. f ≡ function_of word.now code) }
{
    Ok(Function {
        name: name(alloc, word)?,
        params: 1,
        regs: names(alloc, &["n", "r"])?,
        code,
    })
}

/// The checked program of one function, which is well-formed alone.
pub fn alone(function: Function) -> Result<Checked, CheckError>
    ensures whole { IfOk result (λ checked. checked.functions ≡ function ∷ []) }
    ensures refused { IfErr result (λ offence. offence ≢ offences.NoMemory → program_verdict (record { functions = function ∷ [] }) ≡ Err offence) }
{
    let mut functions = Functions::new(function.code.allocator());
    match functions.push(function) {
        Ok(()) => check(Program { functions }),
        Err(NoMemory) => Err(CheckError::NoMemory),
    }
}

/// `op r = .. -> ..`
pub fn op(expr: Expr, next: u32) -> Instr
    ensures { result ≡ Op (record { 0 = 1 }) expr (record { 0 = next }) }
{
    Instr::Op {
        dest: Reg(1),
        expr,
        next: Label(next),
    }
}

/// `cond .. -> .., ..`
pub fn cond(test: Operand, then_to: u32, else_to: u32) -> Instr
    ensures { result ≡ Cond test (record { 0 = then_to }) (record { 0 = else_to }) }
{
    Instr::Cond {
        test,
        then_to: Label(then_to),
        else_to: Label(else_to),
    }
}

/// `print .. -> ..`
pub fn print(value: Operand, next: u32) -> Instr
    ensures { result ≡ Print value (record { 0 = next }) }
{
    Instr::Print {
        value,
        next: Label(next),
    }
}

/// A call with one argument, whose value goes to `r`.
pub fn call(alloc: Global, function: u32, argument: Operand, next: u32) -> Result<Instr, NoMemory>
    ensures { IfOk result (λ call. call ≡ Call (record { 0 = 1 }) (record { 0 = function }) (argument ∷ []) (record { 0 = next })) }
{
    Ok(Instr::Call {
        dest: Reg(1),
        function: FunId(function),
        args: list(alloc, &[argument])?,
        next: Label(next),
    })
}

/// `fun main(n; r) { 1: op r = n + 1 -> 2   2: print r -> 3   3: return r }`
#[tactic(auto, unfolding(crate::specs::Samples::increment, crate::specs::Samples::function_of))]
pub fn increment(alloc: Global) -> Result<Function, NoMemory>
    ensures { IfOk result (λ f. f ≡ increment) }
{
    let sum = Expr::Add(N, Operand::Const(1));
    let instrs = vec![in alloc; op(sum, 1), print(R, 2), Instr::Return { value: R }]?;
    function(alloc, "main", lines(alloc, instrs)?)
}

/// `fun NAME() { 1: return 0 }`
#[tactic(auto, unfolding(crate::specs::Samples::constant_zero, crate::specs::Samples::function_without_registers))]
pub fn constant_zero(alloc: Global, word: &str) -> Result<Function, NoMemory>
    requires { IsTrue (is_name word.now) }
    ensures { IfOk result (λ f. f ≡ constant_zero word.now) }
{
    let value = Operand::Const(0);
    let instrs = vec![in alloc; Instr::Return { value }]?;
    Ok(Function {
        name: name(alloc, word)?,
        params: 0,
        regs: Names::new(alloc),
        code: lines(alloc, instrs)?,
    })
}

/// `fun main(n; r) { 1: op r = n * 2 -> 2   2: print r -> 3   3: return r }`
#[tactic(auto, unfolding(crate::specs::Samples::double, crate::specs::Samples::function_of))]
pub fn double(alloc: Global) -> Result<Function, NoMemory>
    ensures { IfOk result (λ f. f ≡ double) }
{
    let product = Expr::Mul(N, Operand::Const(2));
    let instrs = vec![in alloc; op(product, 1), print(R, 2), Instr::Return { value: R }]?;
    function(alloc, "main", lines(alloc, instrs)?)
}

/// `fun main(n; r) { 1: cond n -> 2, 4   2: op r = n - 1 -> 3   3: call r = main(r) -> 4   4: return n }`
#[tactic(auto, unfolding(crate::specs::Samples::recursion, crate::specs::Samples::function_of))]
pub fn recursion(alloc: Global) -> Result<Function, NoMemory>
    ensures { IfOk result (λ f. f ≡ recursion) }
{
    let instrs = vec![in alloc;
        cond(N, 1, 3),
        op(Expr::Sub(N, Operand::Const(1)), 2),
        call(alloc, 0, R, 3)?,
        Instr::Return { value: N },
    ]?;
    function(alloc, "main", lines(alloc, instrs)?)
}

/// `fun jump() { 1: nop -> 3   2: nop -> 1   3: return 7 }`, where nothing comes to the second line.
#[tactic(auto, unfolding(crate::specs::Samples::jump, crate::specs::Samples::function_without_registers))]
pub fn jump(alloc: Global) -> Result<Function, NoMemory>
    ensures { IfOk result (λ f. f ≡ jump) }
{
    let instrs = vec![in alloc;
        Instr::Nop { next: Label(2) },
        Instr::Nop { next: Label(0) },
        Instr::Return {
            value: Operand::Const(7)
        },
    ]?;
    Ok(Function {
        name: name(alloc, "jump")?,
        params: 0,
        regs: Names::new(alloc),
        code: lines(alloc, instrs)?,
    })
}

/// A call of the first function, with one argument.
pub fn call_of_first(
    alloc: Global,
    argument: i64,
    cells: u32,
    limit: u32,
) -> Result<ScriptCall, NoMemory>
    ensures function { IfOk result (λ call. call.function.0 ≡ 0) }
    ensures argument { IfOk result (λ call. call.args ≡ argument ∷ []) }
    ensures room { IfOk result (λ call. (call.cells ≡ cells) × (call.limit ≡ limit)) }
{
    Ok(ScriptCall {
        function: FunId(0),
        args: list(alloc, &[argument])?,
        cells,
        limit,
    })
}
