//! The words of instructions.

ghost use Rattle.std.specs.Prelude.{◌≡◌, ◌++◌, ◌∷◌, [], OnOk, All};
ghost use Rattle.cj_spelling.specs.declared.kinds.InstrKind.TheVariants as instr_kind;
ghost use Rattle.cj_spelling.specs.Kinds.{instr_number};
ghost use Rattle.cj_spelling.specs.Spelling.{pair_words, instr_words, expr_words, counted, guard_words, point_words, operand_words};
ghost use Rattle.cj_spelling.specs.Values.{HasPairValue, HasExprValues, HasInstrValues, HasGuardValue, HasPointValues, HasOperandValue};

use crate::counts::added;
use crate::kinds::InstrKind;
use crate::spelled::{Spelled, Words};
use cj_draft::{Pair, Point, VInstr};
use cj_ir::{Expr, FunId, Guards, Label, NoMemory, Operand, Operands, Reg};

#[tactic(auto, using(crate::proofs::Capped::capped_more))]
impl Spelled for Pair {
    ghost words_of = { pair_words };

    ghost has_values = { HasPairValue };

    fn count(&self, so_far: u64) -> u64 {
        let so_far = self.dest.count(so_far);
        self.value.count(so_far)
    }

    fn write(&self, out: &mut Words) -> Result<(), NoMemory> {
        self.dest.write(out)?;
        self.value.write(out)
    }
}

// The words of an op.
fn write_op(dest: Reg, expr: Expr, next: Label, out: &mut Words) -> Result<(), NoMemory>
    ensures words { OnOk result (out.new ≡ out.old ++ instr_number instr_kind.Op ∷ dest.0 ∷ (expr_words expr ++ next.0 ∷ [])) }
    ensures values { OnOk result (HasExprValues expr) }
{
    out.push(InstrKind::Op.number())?;
    dest.write(out)?;
    expr.write(out)?;
    next.write(out)
}

// The words of a cond.
fn write_cond(
    test: Operand,
    then_to: Label,
    else_to: Label,
    out: &mut Words,
) -> Result<(), NoMemory>
    ensures words { OnOk result (out.new ≡ out.old ++ instr_number instr_kind.Cond ∷ (operand_words test ++ then_to.0 ∷ else_to.0 ∷ [])) }
    ensures values { OnOk result (HasOperandValue test) }
{
    out.push(InstrKind::Cond.number())?;
    test.write(out)?;
    then_to.write(out)?;
    else_to.write(out)
}

// The words of a call.
fn write_call(
    dest: Reg,
    function: FunId,
    args: &Operands,
    next: Label,
    out: &mut Words,
) -> Result<(), NoMemory>
    ensures words { OnOk result (out.new ≡ out.old ++ instr_number instr_kind.Call ∷ dest.0 ∷ function.0 ∷ (counted operand_words args.now ++ next.0 ∷ [])) }
    ensures values { OnOk result (All HasOperandValue args.now) }
{
    out.push(InstrKind::Call.number())?;
    dest.write(out)?;
    function.write(out)?;
    args.write(out)?;
    next.write(out)
}

// The words of a load.
fn write_load(dest: Reg, address: Operand, next: Label, out: &mut Words) -> Result<(), NoMemory>
    ensures words { OnOk result (out.new ≡ out.old ++ instr_number instr_kind.Load ∷ dest.0 ∷ (operand_words address ++ next.0 ∷ [])) }
    ensures values { OnOk result (HasOperandValue address) }
{
    out.push(InstrKind::Load.number())?;
    dest.write(out)?;
    address.write(out)?;
    next.write(out)
}

// The words of a store.
fn write_store(
    address: Operand,
    value: Operand,
    next: Label,
    out: &mut Words,
) -> Result<(), NoMemory>
    ensures words { OnOk result (out.new ≡ out.old ++ instr_number instr_kind.Store ∷ (operand_words address ++ (operand_words value ++ next.0 ∷ []))) }
    ensures address { OnOk result (HasOperandValue address) }
    ensures value { OnOk result (HasOperandValue value) }
{
    out.push(InstrKind::Store.number())?;
    address.write(out)?;
    value.write(out)?;
    next.write(out)
}

// The words of an assume.
fn write_assume(
    guards: &Guards,
    back: u32,
    target: &Point,
    next: Label,
    out: &mut Words,
) -> Result<(), NoMemory>
    ensures words { OnOk result (out.new ≡ out.old ++ instr_number instr_kind.Assume ∷ (counted guard_words guards.now ++ (back ∷ (point_words target.now ++ next.0 ∷ [])))) }
    ensures guards { OnOk result (All HasGuardValue guards.now) }
    ensures target { OnOk result (HasPointValues target.now) }
{
    out.push(InstrKind::Assume.number())?;
    guards.write(out)?;
    out.push(back as u64)?;
    target.write(out)?;
    next.write(out)
}

impl Spelled for VInstr {
    ghost words_of = { instr_words };

    ghost has_values = { HasInstrValues };

    #[tactic(auto, using(crate::proofs::Capped::capped_more))]
    fn count(&self, so_far: u64) -> u64 {
        match self {
            VInstr::Nop { .. } => added(so_far, 2),
            VInstr::Op { expr, .. } => added(expr.count(so_far), 3),
            VInstr::Move { pairs, .. } => added(pairs.count(so_far), 2),
            VInstr::Cond { .. } => added(so_far, 5),
            VInstr::Call { args, .. } => added(args.count(so_far), 4),
            VInstr::Return { .. } => added(so_far, 3),
            VInstr::Print { .. } => added(so_far, 4),
            VInstr::Load { .. } => added(so_far, 5),
            VInstr::Store { .. } => added(so_far, 6),
            VInstr::Fail { .. } => added(so_far, 3),
            VInstr::Assume { guards, target, .. } => {
                let so_far = guards.count(so_far);
                added(target.count(so_far), 3)
            }
            VInstr::Anchor { .. } => so_far,
        }
    }

    fn write(&self, out: &mut Words) -> Result<(), NoMemory> {
        match *self {
            VInstr::Nop { next } => {
                out.push(InstrKind::Nop.number())?;
                next.write(out)
            }
            VInstr::Op { dest, expr, next } => write_op(dest, expr, next, out),
            VInstr::Move { ref pairs, next } => {
                out.push(InstrKind::Move.number())?;
                pairs.write(out)?;
                next.write(out)
            }
            VInstr::Cond {
                test,
                then_to,
                else_to,
            } => write_cond(test, then_to, else_to, out),
            VInstr::Call {
                dest,
                function,
                ref args,
                next,
            } => write_call(dest, function, args, next, out),
            VInstr::Return { value } => {
                out.push(InstrKind::Return.number())?;
                value.write(out)
            }
            VInstr::Print { value, next } => {
                out.push(InstrKind::Print.number())?;
                value.write(out)?;
                next.write(out)
            }
            VInstr::Load {
                dest,
                address,
                next,
            } => write_load(dest, address, next, out),
            VInstr::Store {
                address,
                value,
                next,
            } => write_store(address, value, next, out),
            VInstr::Fail { function, label } => {
                out.push(InstrKind::Fail.number())?;
                function.write(out)?;
                label.write(out)
            }
            VInstr::Assume {
                ref guards,
                back,
                ref target,
                next,
            } => write_assume(guards, back, target, next, out),
            VInstr::Anchor { .. } => Ok(()),
        }
    }
}
