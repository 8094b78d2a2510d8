//! The frames of a point, and the base body of the increment.

ghost use Rattle.std.specs.Prelude.{◌≡◌, ◌<◌, true, length, All};
ghost use Rattle.cj_ir.specs.Values.{IsOperandWithin};
ghost use Rattle.cj_draft.specs.Points.{IsPointWithin};

use cj_draft::*;
use cj_ir::{Checked, Duplicate, FunId, Label, Operand, Reg};
use cj_samples::{N, R, alone, increment, list};
use std::alloc::Global;
use std::process::Abort;
use std::test::Fail;

fn are_within(operands: &[Operand], count: usize) -> bool
    ensures { result ≡ true → All (IsOperandWithin count) operands.now }
{
    for operand in operands {
        if !is_within(operand, count) {
            return false;
        }
    }
    true
}

fn is_within(operand: &Operand, count: usize) -> bool
    ensures { result ≡ true → IsOperandWithin count operand.now }
{
    match operand {
        Operand::Reg(reg) => (reg.0 as usize) < count,
        Operand::Const(_) => true,
    }
}

fn is_point_within(point: &Point, count: usize) -> bool
    ensures { result ≡ true → IsPointWithin count point.now }
{
    for frame in point.frames.items() {
        if !are_within(frame.map.items(), count) {
            return false;
        }
    }
    true
}

fn register(number: u32) -> Operand {
    Operand::Reg(Reg(number))
}

#[test]
fn a_point_gives_its_frames_innermost_first(rt: HostRuntime) -> Result<(), Fail> {
    let mid = FunId(1);
    let low = FunId(2);
    let mut point = Point {
        frames: Frames::new(rt.alloc()),
    };
    point.frames.push(PointFrame {
        function: low,
        label: Label(1),
        dest: Reg(0),
        map: list(rt.alloc(), &[register(3)])?,
    })?;
    point.frames.push(PointFrame {
        function: mid,
        label: Label(1),
        dest: Reg(1),
        map: list(rt.alloc(), &[register(2), Operand::Const(0)])?,
    })?;
    let point = point.copy()?;
    assert!(rt; !point.frames.items().is_empty());
    assert!(rt; is_point_within(&point, 4));
    let (top, waiting) = point.frames(&[9, 8, 7, 6])?;
    assert_eq!(rt; top.function, low);
    assert_eq!(rt; top.label, Label(1));
    assert_eq!(rt; top.regs.items(), [6].as_slice());
    assert_eq!(rt; waiting.items().len(), 1);
    let frame = &waiting.items()[0];
    assert_eq!(rt; frame.function, mid);
    assert_eq!(rt; frame.label, Label(1));
    assert_eq!(rt; frame.dest, Reg(1));
    assert_eq!(rt; frame.regs.items(), [7, 0].as_slice());
    Ok(())
}

// The base draft of the first function, taken apart and adopted again.
fn base_draft<'p>(rt: &impl Abort, alloc: Global, checked: &'p Checked) -> Result<Draft<'p>, Fail> {
    assert!(rt; !checked.program().functions.items().is_empty());
    let draft = Draft::of_base(alloc, checked, FunId(0))?;
    let (checked, context, code) = draft.into_parts();
    Ok(Draft::adopt_in(checked, context, code))
}

fn point_is_own(rt: &impl Abort, point: &Point, label: Label) -> Result<(), Fail> {
    let point = point.copy()?;
    assert_eq!(rt; point.frames.items().len(), 1);
    let frame = &point.frames.items()[0];
    assert_eq!(rt; frame.label, label);
    assert_eq!(rt; frame.map.items(), [N, R].as_slice());
    Ok(())
}

fn value_of_return(instr: &VInstr) -> Result<Operand, Fail> {
    match instr.copy()? {
        VInstr::Return { value } => Ok(value),
        _ => Err(Fail::from("the instruction is no return")),
    }
}

fn number_of_facts(facts: &Facts) -> Result<usize, Fail> {
    match facts.copy()? {
        Facts::Known(facts) => Ok(facts.items().len()),
        Facts::Unreached => Err(Fail::from("the facts are not known")),
    }
}

#[test]
fn the_base_body_of_the_increment_has_its_places(rt: HostRuntime) -> Result<(), Fail> {
    let checked = alone(increment(rt.alloc())?)?;
    let draft = base_draft(&rt, rt.alloc(), &checked)?;
    let code = draft.code();
    assert_eq!(rt; code.regs, 2);
    assert_eq!(rt; code.places.items().len(), 3);
    let place = &code.places.items()[2];
    point_is_own(&rt, &place.point, Label(2))?;
    assert_eq!(rt; place.backs.copy()?.items().len(), 0);
    assert_eq!(rt; number_of_facts(&place.facts)?, 0);
    assert_eq!(rt; value_of_return(&place.instr)?, R);
    Ok(())
}
