//! Registers and labels of a callee, in the numbers of its caller.

ghost use Rattle.std.specs.Prelude.{◌≡◌, ◌<◌, ◌≤◌, ℕ, All, IfOk, map};
ghost use Rattle.cj_ir.specs.Values.{IsOperandWithin, IsExprWithin};
ghost use Rattle.cj_draft.specs.WellNamed.{IsGuardWithin};
ghost use Rattle.cj_draft.specs.Operands.{with_operands};
ghost use Rattle.cj_draft.specs.Inlining.{shift_reg, shift_label, shift_operand, shift_guard, shift_pair, shift_frame, shift_fact};
ghost use Rattle.cj_draft.specs.declared.limits.TheConstants.{MAX_CODE_REGS, MAX_CODE_LABELS};

use cj_draft::{Fact, Pair, PointFrame};
use cj_ir::{Expr, Guard, Label, NoMemory, Operand, Reg, Sequence};

#[tactic(auto, unfolding(cj_draft::specs::Inlining::shift_reg))]
pub(crate) fn shifted_reg(by: u32, reg: Reg) -> Reg
    requires few { by ≤ MAX_CODE_REGS }
    requires within { reg.0 < MAX_CODE_REGS }
    ensures { result ≡ shift_reg by reg }
{
    Reg(by + reg.0)
}

#[tactic(auto, unfolding(cj_draft::specs::Inlining::shift_label))]
pub(crate) fn shifted_label(by: u32, label: Label) -> Label
    requires few { by ≤ MAX_CODE_LABELS }
    requires within { label.0 < MAX_CODE_LABELS }
    ensures { result ≡ shift_label by label }
{
    Label(by + label.0)
}

#[tactic(auto, unfolding(cj_draft::specs::Inlining::shift_operand))]
pub(crate) fn shifted_operand(by: u32, operand: Operand) -> Operand
    requires few { by ≤ MAX_CODE_REGS }
    requires within { IsOperandWithin MAX_CODE_REGS operand }
    ensures { result ≡ shift_operand by operand }
{
    match operand {
        Operand::Reg(reg) => Operand::Reg(shifted_reg(by, reg)),
        Operand::Const(value) => Operand::Const(value),
    }
}

#[tactic(auto, unfolding(cj_draft::specs::Operands::with_operands))]
pub(crate) fn shifted_expr(by: u32, expr: Expr) -> Expr
    requires few { by ≤ MAX_CODE_REGS }
    requires within { IsExprWithin MAX_CODE_REGS expr }
    ensures { result ≡ with_operands (shift_operand by) expr }
{
    match expr {
        Expr::Copy(a) => Expr::Copy(shifted_operand(by, a)),
        Expr::Neg(a) => Expr::Neg(shifted_operand(by, a)),
        Expr::Eqz(a) => Expr::Eqz(shifted_operand(by, a)),
        Expr::Add(a, b) => Expr::Add(shifted_operand(by, a), shifted_operand(by, b)),
        Expr::Sub(a, b) => Expr::Sub(shifted_operand(by, a), shifted_operand(by, b)),
        Expr::Mul(a, b) => Expr::Mul(shifted_operand(by, a), shifted_operand(by, b)),
        Expr::Div(a, b) => Expr::Div(shifted_operand(by, a), shifted_operand(by, b)),
        Expr::Rem(a, b) => Expr::Rem(shifted_operand(by, a), shifted_operand(by, b)),
        Expr::Eq(a, b) => Expr::Eq(shifted_operand(by, a), shifted_operand(by, b)),
        Expr::Lt(a, b) => Expr::Lt(shifted_operand(by, a), shifted_operand(by, b)),
    }
}

/// What names registers of a callee.
pub(crate) trait Shift: Drop {
    ghost shift: { ℕ → Self → Self };

    ghost is_within: { Self → Type 0 };

    /// The same of the registers that many further on.
    fn shifted(&self, by: u32) -> Result<Self, NoMemory>
        requires few { by ≤ MAX_CODE_REGS }
        requires within { is_within self.now }
        ensures { IfOk result (λ made. made ≡ shift by self.now) };
}

impl Shift for Operand {
    ghost shift = { shift_operand };

    ghost is_within = { IsOperandWithin MAX_CODE_REGS };

    fn shifted(&self, by: u32) -> Result<Operand, NoMemory> {
        Ok(shifted_operand(by, *self))
    }
}

#[tactic(auto, unfolding(cj_draft::specs::Inlining::shift_guard))]
impl Shift for Guard {
    ghost shift = { shift_guard };

    ghost is_within = { IsGuardWithin MAX_CODE_REGS };

    fn shifted(&self, by: u32) -> Result<Guard, NoMemory> {
        Ok(match *self {
            Guard::Is { reg, value } => Guard::Is {
                reg: shifted_reg(by, reg),
                value,
            },
            Guard::Never => Guard::Never,
        })
    }
}

#[tactic(auto, unfolding(cj_draft::specs::Inlining::shift_pair))]
impl Shift for Pair {
    ghost shift = { shift_pair };

    ghost is_within = { λ pair. (pair.dest.0 < MAX_CODE_REGS) × IsOperandWithin MAX_CODE_REGS pair.value };

    fn shifted(&self, by: u32) -> Result<Pair, NoMemory> {
        Ok(Pair {
            dest: shifted_reg(by, self.dest),
            value: shifted_operand(by, self.value),
        })
    }
}

#[tactic(auto, unfolding(cj_draft::specs::Inlining::shift_fact))]
impl Shift for Fact {
    ghost shift = { shift_fact };

    ghost is_within = { λ fact. fact.reg.0 < MAX_CODE_REGS };

    fn shifted(&self, by: u32) -> Result<Fact, NoMemory> {
        Ok(Fact {
            reg: shifted_reg(by, self.reg),
            value: self.value,
        })
    }
}

#[tactic(auto, unfolding(cj_draft::specs::Inlining::shift_frame))]
impl Shift for PointFrame {
    ghost shift = { shift_frame };

    ghost is_within = { λ frame. All (IsOperandWithin MAX_CODE_REGS) frame.map };

    fn shifted(&self, by: u32) -> Result<PointFrame, NoMemory> {
        let map = shifted_all(&self.map, by)?;
        Ok(PointFrame {
            function: self.function,
            label: self.label,
            dest: self.dest,
            map,
        })
    }
}

/// The same items of the registers that many further on.
pub(crate) fn shifted_all<T: Shift>(items: &Sequence<T>, by: u32) -> Result<Sequence<T>, NoMemory>
    requires few { by ≤ MAX_CODE_REGS }
    requires within { All T.is_within items.now }
    ensures { IfOk result (λ made. made ≡ map (T.shift by) items.now) }
{
    let mut made = Sequence::new(items.allocator());
    'each: for item in items.items() {
        let item = item.shifted(by)?;
        made.push(item)?;
    }
    Ok(made)
}
