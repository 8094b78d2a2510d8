//! Programs: functions whose code is a list of labelled instructions over registers.

ghost use Rattle.std.specs.Prelude.{◌≡◌, ◌<◌, length, Some};
ghost use Rattle.cj_ir.specs.Program.{function_at, line_at, label_count};

use crate::duplicate::Duplicate;
use crate::memory::NoMemory;
use crate::sequence::Sequence;
use crate::texts::{Name, Text};

/// A function, by its place in the program's list, from 0.
#[derive(Clone, Copy, Debug, PartialEq, Eq)]
pub struct FunId(pub u32);

/// A label, by its place in its function's code, from 0. The entry is label 0.
#[derive(Clone, Copy, Debug, PartialEq, Eq)]
pub struct Label(pub u32);

/// A register, by its number in its function, from 0. Parameters come first.
#[derive(Clone, Copy, Debug, PartialEq, Eq)]
pub struct Reg(pub u32);

/// A value as an instruction names it: a register's, or a constant.
#[derive(Clone, Copy, Debug, PartialEq, Eq)]
pub enum Operand {
    Reg(Reg),
    Const(i64),
}

/// An operand as it is, or one operator applied to one or two operands.
///
/// `+`, `-`, `*` and the negation wrap modulo 2^64. `/` and `%` truncate toward zero, have no value at the
/// divisor 0, and give the least value and 0 for the least value over -1. A test gives 1 or 0.
#[derive(Clone, Copy, Debug, PartialEq, Eq)]
pub enum Expr {
    /// `a`
    Copy(Operand),
    /// `neg a`
    Neg(Operand),
    /// `eqz a`: 1 for 0, and else 0
    Eqz(Operand),
    /// `a + b`
    Add(Operand, Operand),
    /// `a - b`
    Sub(Operand, Operand),
    /// `a * b`
    Mul(Operand, Operand),
    /// `a / b`
    Div(Operand, Operand),
    /// `a % b`
    Rem(Operand, Operand),
    /// `a = b`
    Eq(Operand, Operand),
    /// `a < b`, of signed numbers
    Lt(Operand, Operand),
}

/// A condition on registers: `register = constant`, or the one that is always false.
#[derive(Clone, Copy, Debug, PartialEq, Eq)]
pub enum Guard {
    Is { reg: Reg, value: i64 },
    Never,
}

/// A way out of a `cond`.
#[derive(Clone, Copy, Debug, PartialEq, Eq)]
pub enum Edge {
    Then,
    Else,
}

/// An instruction of a base body.
#[derive(Debug, Drop)]
pub enum Instr {
    /// Goes to a label.
    Nop {
        next: Label,
    },
    /// Sets a register to the value of an expression. A zero divisor ends the run.
    Op {
        dest: Reg,
        expr: Expr,
        next: Label,
    },
    /// Goes to the first label where the operand is not 0, and else to the second.
    Cond {
        test: Operand,
        then_to: Label,
        else_to: Label,
    },
    /// Calls a function, and goes on at the label with its value in the register.
    Call {
        dest: Reg,
        function: FunId,
        args: Operands,
        next: Label,
    },
    /// Gives a value to the caller, or ends the run where there is none.
    Return {
        value: Operand,
    },
    /// Appends a value to the prints.
    Print {
        value: Operand,
        next: Label,
    },
    /// Sets a register to a cell of the memory. An address outside of it ends the run.
    Load {
        dest: Reg,
        address: Operand,
        next: Label,
    },
    /// Sets a cell of the memory. An address outside of it ends the run.
    Store {
        address: Operand,
        value: Operand,
        next: Label,
    },
    /// Ends the run.
    Fail {
        text: Text,
    },
}

/// An instruction, with the number that the text gives its label.
#[derive(Debug, Drop)]
pub struct Line {
    pub name: u32,
    pub instr: Instr,
}

/// A function. `regs` names all its registers, of which the first `params` are its parameters. The first line
/// of `code` is its entry.
#[derive(Debug, Drop)]
pub struct Function {
    pub name: Name,
    pub params: u32,
    pub regs: Names,
    pub code: Lines,
}

/// The functions of a program, of which nothing needs to hold. `check` tells whether it is well-formed.
#[derive(Debug, Drop)]
pub struct Program {
    pub functions: Functions,
}

impl Program {
    /// The function of that number.
    #[inline]
    pub fn function(&self, id: FunId) -> &Function
        requires { id.0 < length self.now.functions }
        ensures { function_at self.now id ≡ Some result.now }
    {
        &self.functions.items()[id.0 as usize]
    }

    /// The line at that label of a function.
    #[inline]
    pub fn line(&self, id: FunId, label: Label) -> &Line
        requires { label.0 < label_count self.now id }
        ensures { line_at self.now id label ≡ Some result.now }
    {
        let function = self.function(id);
        &function.code.items()[label.0 as usize]
    }
}

pub type Values = Sequence<i64>;

pub type Names = Sequence<Name>;

pub type Labels = Sequence<Label>;

pub type Lines = Sequence<Line>;

pub type Functions = Sequence<Function>;

pub type Operands = Sequence<Operand>;

pub type Guards = Sequence<Guard>;

impl Duplicate for FunId {
    fn copy(&self) -> Result<FunId, NoMemory> {
        Ok(*self)
    }
}

impl Duplicate for Label {
    fn copy(&self) -> Result<Label, NoMemory> {
        Ok(*self)
    }
}

impl Duplicate for Reg {
    fn copy(&self) -> Result<Reg, NoMemory> {
        Ok(*self)
    }
}

impl Duplicate for Operand {
    fn copy(&self) -> Result<Operand, NoMemory> {
        Ok(*self)
    }
}

impl Duplicate for Guard {
    fn copy(&self) -> Result<Guard, NoMemory> {
        Ok(*self)
    }
}

impl Duplicate for Edge {
    fn copy(&self) -> Result<Edge, NoMemory> {
        Ok(*self)
    }
}
