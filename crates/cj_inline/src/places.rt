//! The callee's places in its caller.

ghost use Rattle.std.specs.Prelude.{◌≡◌, ◌<◌, ◌≤◌, ◌++◌, [], ◌∷◌, All, IfOk, map, length};
ghost use Rattle.cj_ir.specs.declared.language.Program.{Program};
ghost use Rattle.cj_ir.specs.Values.{IsOperandWithin};
ghost use Rattle.cj_draft.specs.declared.instructions.VInstr.TheVariants.{Move, Cond, Call, Load, Store, Assume, Anchor};
ghost use Rattle.cj_draft.specs.Points.{IsPointWithin};
ghost use Rattle.cj_draft.specs.WellNamed.{IsGuardWithin, ArePairsFine, IsVInstrFine, HasFineFacts, IsPlaceFine};
ghost use Rattle.cj_draft.specs.Inlining.{shift_reg, shift_label, shift_operand, shift_guard, shift_pair, joined, joined_facts, inlined_instr};
ghost use Rattle.cj_inline.specs.Inlining.{inlined_back, inlined_place};
ghost use Rattle.cj_draft.specs.declared.limits.TheConstants.{MAX_CODE_REGS, MAX_CODE_LABELS};

use crate::seams::{Seam, with_all};
use crate::shifts::{shifted_all, shifted_expr, shifted_label, shifted_operand, shifted_reg};
use cj_draft::{Back, Backs, Facts, Pair, Pairs, Place, Places, Point, VInstr};
use cj_ir::{Duplicate, FunId, Guards, Label, NoMemory, Operand, Operands, Reg};
use std::alloc::Global;

/// A point of the callee, with the caller's frames after its own.
#[tactic(auto, unfolding(cj_draft::specs::Inlining::joined))]
fn joined(seam: &Seam, point: &Point) -> Result<Point, NoMemory>
    requires few { seam.now.regs ≤ MAX_CODE_REGS }
    requires within { IsPointWithin MAX_CODE_REGS point.now }
    ensures { IfOk result (λ made. made ≡ joined seam.now.regs seam.now.frames point.now) }
{
    let frames = shifted_all(&point.frames, seam.regs)?;
    let frames = with_all(frames, seam.frames.items())?;
    Ok(Point { frames })
}

/// What is known at the call and at the callee's place.
#[tactic(auto, unfolding(cj_draft::specs::Inlining::joined_facts))]
fn joined_facts(seam: &Seam, own: &Facts) -> Result<Facts, NoMemory>
    requires few { seam.now.regs ≤ MAX_CODE_REGS }
    requires within { HasFineFacts MAX_CODE_REGS own.now }
    ensures { IfOk result (λ made. made ≡ joined_facts seam.now.regs seam.now.facts own.now) }
{
    match (&seam.facts, own) {
        (Facts::Known(facts), Facts::Known(own)) => {
            let own = shifted_all(own, seam.regs)?;
            let facts = facts.copy()?;
            let facts = with_all(facts, own.items())?;
            Ok(Facts::Known(facts))
        }
        _ => Ok(Facts::Unreached),
    }
}

/// One assignment.
fn one_pair(alloc: Global, dest: Reg, value: Operand) -> Result<Pairs, NoMemory>
    ensures { IfOk result (λ pairs. pairs ≡ record { dest = dest; value = value } ∷ []) }
{
    let mut pairs = Pairs::new(alloc);
    pairs.push(Pair { dest, value })?;
    Ok(pairs)
}

/// A Move of the callee in its caller. Fails only for want of memory.
fn inlined_move(seam: &Seam, pairs: &Pairs, next: Label) -> Result<VInstr, NoMemory>
    requires few_regs { seam.now.regs ≤ MAX_CODE_REGS }
    requires few_labels { seam.now.labels ≤ MAX_CODE_LABELS }
    requires pairs { ArePairsFine MAX_CODE_REGS pairs.now }
    requires next { next.0 < MAX_CODE_LABELS }
    ensures { IfOk result (λ made. made ≡ Move (map (shift_pair seam.now.regs) pairs.now) (shift_label seam.now.labels next)) }
{
    let pairs = shifted_all(pairs, seam.regs)?;
    Ok(VInstr::Move {
        pairs,
        next: shifted_label(seam.labels, next),
    })
}

/// A Cond of the callee in its caller.
fn inlined_cond(seam: &Seam, test: Operand, then_to: Label, else_to: Label) -> VInstr
    requires few_regs { seam.now.regs ≤ MAX_CODE_REGS }
    requires few_labels { seam.now.labels ≤ MAX_CODE_LABELS }
    requires test { IsOperandWithin MAX_CODE_REGS test }
    requires then_to { then_to.0 < MAX_CODE_LABELS }
    requires else_to { else_to.0 < MAX_CODE_LABELS }
    ensures { let labels = seam.now.labels in
        result ≡ Cond (shift_operand seam.now.regs test) (shift_label labels then_to) (shift_label labels else_to) }
{
    VInstr::Cond {
        test: shifted_operand(seam.regs, test),
        then_to: shifted_label(seam.labels, then_to),
        else_to: shifted_label(seam.labels, else_to),
    }
}

/// A Call of the callee in its caller. Fails only for want of memory.
fn inlined_call(
    seam: &Seam,
    dest: Reg,
    function: FunId,
    args: &Operands,
    next: Label,
) -> Result<VInstr, NoMemory>
    requires few_regs { seam.now.regs ≤ MAX_CODE_REGS }
    requires few_labels { seam.now.labels ≤ MAX_CODE_LABELS }
    requires dest { dest.0 < MAX_CODE_REGS }
    requires args { All (IsOperandWithin MAX_CODE_REGS) args.now }
    requires next { next.0 < MAX_CODE_LABELS }
    ensures { let regs = seam.now.regs in
        IfOk result (λ made. made ≡
        Call (shift_reg regs dest) function (map (shift_operand regs) args.now) (shift_label seam.now.labels next)) }
{
    let args = shifted_all(args, seam.regs)?;
    Ok(VInstr::Call {
        dest: shifted_reg(seam.regs, dest),
        function,
        args,
        next: shifted_label(seam.labels, next),
    })
}

/// The Move that a Return of the callee becomes in its caller: its value goes to the call's destination, and the run goes
/// on after the call. Fails only for want of memory.
fn inlined_return(seam: &Seam, value: Operand) -> Result<VInstr, NoMemory>
    requires few { seam.now.regs ≤ MAX_CODE_REGS }
    requires within { IsOperandWithin MAX_CODE_REGS value }
    ensures { let moved = shift_operand seam.now.regs value in
        IfOk result (λ made. made ≡ Move (record { dest = seam.now.dest; value = moved } ∷ []) seam.now.next) }
{
    let value = shifted_operand(seam.regs, value);
    let pairs = one_pair(seam.frames.allocator(), seam.dest, value)?;
    Ok(VInstr::Move {
        pairs,
        next: seam.next,
    })
}

/// A Load of the callee in its caller.
fn inlined_load(seam: &Seam, dest: Reg, address: Operand, next: Label) -> VInstr
    requires few_regs { seam.now.regs ≤ MAX_CODE_REGS }
    requires few_labels { seam.now.labels ≤ MAX_CODE_LABELS }
    requires dest { dest.0 < MAX_CODE_REGS }
    requires address { IsOperandWithin MAX_CODE_REGS address }
    requires next { next.0 < MAX_CODE_LABELS }
    ensures { let regs = seam.now.regs in
        result ≡ Load (shift_reg regs dest) (shift_operand regs address) (shift_label seam.now.labels next) }
{
    VInstr::Load {
        dest: shifted_reg(seam.regs, dest),
        address: shifted_operand(seam.regs, address),
        next: shifted_label(seam.labels, next),
    }
}

/// A Store of the callee in its caller.
fn inlined_store(seam: &Seam, address: Operand, value: Operand, next: Label) -> VInstr
    requires few_regs { seam.now.regs ≤ MAX_CODE_REGS }
    requires few_labels { seam.now.labels ≤ MAX_CODE_LABELS }
    requires address { IsOperandWithin MAX_CODE_REGS address }
    requires value { IsOperandWithin MAX_CODE_REGS value }
    requires next { next.0 < MAX_CODE_LABELS }
    ensures { let regs = seam.now.regs in
        result ≡ Store (shift_operand regs address) (shift_operand regs value) (shift_label seam.now.labels next) }
{
    VInstr::Store {
        address: shifted_operand(seam.regs, address),
        value: shifted_operand(seam.regs, value),
        next: shifted_label(seam.labels, next),
    }
}

/// An Assume of the callee in its caller, whose frames follow those of its target. Fails only for want of memory.
fn inlined_assume(
    seam: &Seam,
    guards: &Guards,
    back: u32,
    target: &Point,
    next: Label,
) -> Result<VInstr, NoMemory>
    requires few_regs { seam.now.regs ≤ MAX_CODE_REGS }
    requires few_labels { seam.now.labels ≤ MAX_CODE_LABELS }
    requires guards { All (IsGuardWithin MAX_CODE_REGS) guards.now }
    requires target { IsPointWithin MAX_CODE_REGS target.now }
    requires next { next.0 < MAX_CODE_LABELS }
    ensures { let regs = seam.now.regs in
        IfOk result (λ made. made ≡
        Assume (map (shift_guard regs) guards.now) back (joined regs seam.now.frames target.now) (shift_label seam.now.labels next)) }
{
    let guards = shifted_all(guards, seam.regs)?;
    let target = joined(seam, target)?;
    Ok(VInstr::Assume {
        guards,
        back,
        target,
        next: shifted_label(seam.labels, next),
    })
}

/// An Anchor of the callee in its caller, whose frames follow those of its target. Fails only for want of memory.
fn inlined_anchor(seam: &Seam, back: u32, target: &Point, next: Label) -> Result<VInstr, NoMemory>
    requires few_regs { seam.now.regs ≤ MAX_CODE_REGS }
    requires few_labels { seam.now.labels ≤ MAX_CODE_LABELS }
    requires target { IsPointWithin MAX_CODE_REGS target.now }
    requires next { next.0 < MAX_CODE_LABELS }
    ensures { let point = joined seam.now.regs seam.now.frames target.now in
        IfOk result (λ made. made ≡ Anchor back point (shift_label seam.now.labels next)) }
{
    let target = joined(seam, target)?;
    Ok(VInstr::Anchor {
        back,
        target,
        next: shifted_label(seam.labels, next),
    })
}

/// An instruction of the callee in its caller. A return is a move of its value to the call's destination, and goes on after
/// the call.
#[tactic(auto, unfolding(cj_draft::specs::Inlining::inlined_instr))]
fn inlined_instr(seam: &Seam, instr: &VInstr) -> Result<VInstr, NoMemory>
    requires few_regs { seam.now.regs ≤ MAX_CODE_REGS }
    requires few_labels { seam.now.labels ≤ MAX_CODE_LABELS }
    requires fine { (P : Program) × IsVInstrFine P MAX_CODE_REGS MAX_CODE_LABELS instr.now }
    ensures { IfOk result (λ made. made ≡ inlined_instr seam.now.regs seam.now.labels seam.now.frames seam.now.dest seam.now.next instr.now) }
{
    let regs = seam.regs;
    let labels = seam.labels;
    match instr {
        VInstr::Nop { next } => Ok(VInstr::Nop {
            next: shifted_label(labels, *next),
        }),
        VInstr::Op { dest, expr, next } => Ok(VInstr::Op {
            dest: shifted_reg(regs, *dest),
            expr: shifted_expr(regs, *expr),
            next: shifted_label(labels, *next),
        }),
        VInstr::Move { pairs, next } => inlined_move(seam, pairs, *next),
        VInstr::Cond {
            test,
            then_to,
            else_to,
        } => Ok(inlined_cond(seam, *test, *then_to, *else_to)),
        VInstr::Call {
            dest,
            function,
            args,
            next,
        } => inlined_call(seam, *dest, *function, args, *next),
        VInstr::Return { value } => inlined_return(seam, *value),
        VInstr::Print { value, next } => Ok(VInstr::Print {
            value: shifted_operand(regs, *value),
            next: shifted_label(labels, *next),
        }),
        VInstr::Load {
            dest,
            address,
            next,
        } => Ok(inlined_load(seam, *dest, *address, *next)),
        VInstr::Store {
            address,
            value,
            next,
        } => Ok(inlined_store(seam, *address, *value, *next)),
        VInstr::Fail { .. } => instr.copy(),
        VInstr::Assume {
            guards,
            back,
            target,
            next,
        } => inlined_assume(seam, guards, *back, target, *next),
        VInstr::Anchor { back, target, next } => inlined_anchor(seam, *back, target, *next),
    }
}

#[tactic(auto, unfolding(crate::specs::Inlining::inlined_back))]
fn inlined_back(seam: &Seam, pair: &Back) -> Result<Back, NoMemory>
    requires few { seam.now.regs ≤ MAX_CODE_REGS }
    requires within { IsPointWithin MAX_CODE_REGS pair.now.point }
    ensures { IfOk result (λ made. made ≡ inlined_back seam.now pair.now) }
{
    let point = joined(seam, &pair.point)?;
    Ok(Back {
        turns: pair.turns,
        point,
    })
}

fn inlined_backs(seam: &Seam, backs: &Backs) -> Result<Backs, NoMemory>
    requires few { seam.now.regs ≤ MAX_CODE_REGS }
    requires within { All (λ pair. IsPointWithin MAX_CODE_REGS pair.point) backs.now }
    ensures { IfOk result (λ made. made ≡ map (inlined_back seam.now) backs.now) }
{
    let mut made = Backs::new(backs.allocator());
    'each: for pair in backs.items() {
        let pair = inlined_back(seam, pair)?;
        made.push(pair)?;
    }
    Ok(made)
}

/// A place of the callee in its caller.
#[tactic(auto, unfolding(crate::specs::Inlining::inlined_place))]
fn inlined_place(seam: &Seam, place: &Place) -> Result<Place, NoMemory>
    requires few_regs { seam.now.regs ≤ MAX_CODE_REGS }
    requires few_labels { seam.now.labels ≤ MAX_CODE_LABELS }
    requires fine { (P : Program) × IsPlaceFine P MAX_CODE_REGS MAX_CODE_LABELS place.now }
    ensures { IfOk result (λ made. made ≡ inlined_place seam.now place.now) }
{
    let instr = inlined_instr(seam, &place.instr)?;
    let point = joined(seam, &place.point)?;
    let facts = joined_facts(seam, &place.facts)?;
    let backs = inlined_backs(seam, &place.backs)?;
    Ok(Place {
        instr,
        point,
        facts,
        backs,
    })
}

/// The places with those of the callee after them.
pub(crate) fn with_callee(
    mut places: Places,
    seam: &Seam,
    callee: &Places,
) -> Result<Places, NoMemory>
    requires few_regs { seam.now.regs ≤ MAX_CODE_REGS }
    requires few_labels { seam.now.labels ≤ MAX_CODE_LABELS }
    requires fine { (P : Program) × All (IsPlaceFine P MAX_CODE_REGS MAX_CODE_LABELS) callee.now }
    ensures { IfOk result (λ made. made ≡ places ++ map (inlined_place seam.now) callee.now) }
{
    'each: for place in callee.items() {
        let place = inlined_place(seam, place)?;
        places.push(place)?;
    }
    Ok(places)
}
