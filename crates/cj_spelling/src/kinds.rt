//! The kinds of instructions and expressions in words, each with its number.

ghost use Rattle.std.specs.Prelude.{◌≡◌, ◌≢◌, IfSome, None};
ghost use Rattle.cj_spelling.specs.declared.kinds.InstrKind.{InstrKind};
ghost use Rattle.cj_spelling.specs.declared.kinds.ExprKind.{ExprKind};
ghost use Rattle.cj_spelling.specs.Kinds.{instr_number, expr_number};

/// The kind of an instruction in words. An Anchor has none: a version has no Anchors.
#[derive(Clone, Copy, Debug, PartialEq, Eq)]
pub enum InstrKind {
    Nop,
    Op,
    Move,
    Cond,
    Call,
    Return,
    Print,
    Load,
    Store,
    Fail,
    Assume,
}

impl InstrKind {
    /// The kind's number.
    pub fn number(self) -> u64
        ensures { result ≡ instr_number self }
    {
        match self {
            InstrKind::Nop => 1,
            InstrKind::Op => 2,
            InstrKind::Move => 3,
            InstrKind::Cond => 4,
            InstrKind::Call => 5,
            InstrKind::Return => 6,
            InstrKind::Print => 7,
            InstrKind::Load => 8,
            InstrKind::Store => 9,
            InstrKind::Fail => 10,
            InstrKind::Assume => 11,
        }
    }

    /// The kind of that number, if there is one.
    pub fn of(number: u64) -> Option<InstrKind>
        ensures found { IfSome result (λ kind. number ≡ instr_number kind) }
        ensures missing { result ≡ None → (kind : InstrKind) → number ≢ instr_number kind }
    {
        Some(match number {
            1 => InstrKind::Nop,
            2 => InstrKind::Op,
            3 => InstrKind::Move,
            4 => InstrKind::Cond,
            5 => InstrKind::Call,
            6 => InstrKind::Return,
            7 => InstrKind::Print,
            8 => InstrKind::Load,
            9 => InstrKind::Store,
            10 => InstrKind::Fail,
            11 => InstrKind::Assume,
            _ => return None,
        })
    }
}

/// The kind of an expression in words, which is its operator.
#[derive(Clone, Copy, Debug, PartialEq, Eq)]
pub enum ExprKind {
    Copy,
    Neg,
    Eqz,
    Add,
    Sub,
    Mul,
    Div,
    Rem,
    Eq,
    Lt,
}

impl ExprKind {
    /// The kind's number.
    pub fn number(self) -> u64
        ensures { result ≡ expr_number self }
    {
        match self {
            ExprKind::Copy => 0,
            ExprKind::Neg => 1,
            ExprKind::Eqz => 2,
            ExprKind::Add => 3,
            ExprKind::Sub => 4,
            ExprKind::Mul => 5,
            ExprKind::Div => 6,
            ExprKind::Rem => 7,
            ExprKind::Eq => 8,
            ExprKind::Lt => 9,
        }
    }

    /// The kind of that number, if there is one.
    pub fn of(number: u64) -> Option<ExprKind>
        ensures found { IfSome result (λ kind. number ≡ expr_number kind) }
        ensures missing { result ≡ None → (kind : ExprKind) → number ≢ expr_number kind }
    {
        Some(match number {
            0 => ExprKind::Copy,
            1 => ExprKind::Neg,
            2 => ExprKind::Eqz,
            3 => ExprKind::Add,
            4 => ExprKind::Sub,
            5 => ExprKind::Mul,
            6 => ExprKind::Div,
            7 => ExprKind::Rem,
            8 => ExprKind::Eq,
            9 => ExprKind::Lt,
            _ => return None,
        })
    }
}
