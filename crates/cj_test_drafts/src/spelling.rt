//! Spellings written by hand: the shortest one, and a list of all kinds of instructions.

ghost use Rattle.std.specs.Prelude.{◌≡◌, true};
ghost use Rattle.cj_draft.specs.Bodies.{IsNoAnchor, HasNoAnchors};

use cj_draft::{Code, Draft, Frames, Pair, Pairs, Place, Point, PointFrame, VInstr, Version};
use cj_ir::{
    Checked, Expr, FunId, Guard, Guards, Label, NoMemory, Operand, Operands, Reg, Sequence,
};
use cj_samples::{alone, constant_zero};
use cj_spelling::laws::named_code_is_in_range;
use cj_spelling::*;
use std::alloc::Global;
use std::process::Abort;
use std::test::Fail;

const RETURN: [u64; 17] = [17, 1, 0, 0, 0, 1, 6, 1, 0, 1, 0, 0, 0, 0, 1, 0, 0];

fn is_no_anchor(place: &Place) -> bool
    ensures { result ≡ true → IsNoAnchor place.now.instr }
{
    match place.instr {
        VInstr::Anchor { .. } => false,
        _ => true,
    }
}

fn has_no_anchors(code: &Code) -> bool
    ensures { result ≡ true → HasNoAnchors code.now }
{
    for place in code.places.items() {
        if !is_no_anchor(place) {
            return false;
        }
    }
    true
}

// A version is in range.
fn words_of(alloc: Global, version: &Version<'_>) -> Result<Words, EncodeError> {
    let code = version.code();
    named_code_is_in_range(version.checked().program(), code);
    encode(alloc, code)
}

// The words of the base draft of the first function.
fn base_words(rt: &impl Abort, alloc: Global, checked: &Checked) -> Result<Words, Fail> {
    assert!(rt; !checked.program().functions.items().is_empty());
    let draft = Draft::of_base(alloc, checked, FunId(0))?;
    let (checked, context, code) = draft.into_parts();
    assert!(rt; has_no_anchors(&code));
    let version = Version::adopt_in(checked, context, code);
    Ok(words_of(alloc, &version)?)
}

// An assume of two guards with a target of two frames.
fn assume(alloc: Global) -> Result<VInstr, NoMemory> {
    let mut guards = Guards::new(alloc);
    guards.push(Guard::Never)?;
    guards.push(Guard::Is {
        reg: Reg(0),
        value: 5,
    })?;
    let mut map = Operands::new(alloc);
    map.push(Operand::Reg(Reg(1)))?;
    let mut frames = Frames::new(alloc);
    frames.push(PointFrame {
        function: FunId(0),
        label: Label(3),
        dest: Reg(0),
        map,
    })?;
    frames.push(PointFrame {
        function: FunId(1),
        label: Label(2),
        dest: Reg(31),
        map: Operands::new(alloc),
    })?;
    Ok(VInstr::Assume {
        guards,
        back: 4,
        target: Point { frames },
        next: Label(2),
    })
}

// A move of two assignments.
fn two_moves(alloc: Global) -> Result<VInstr, NoMemory> {
    let mut pairs = Pairs::new(alloc);
    pairs.push(Pair {
        dest: Reg(0),
        value: Operand::Reg(Reg(1)),
    })?;
    pairs.push(Pair {
        dest: Reg(1),
        value: Operand::Const(7),
    })?;
    Ok(VInstr::Move {
        pairs,
        next: Label(3),
    })
}

// A call with two arguments.
fn call(alloc: Global) -> Result<VInstr, NoMemory> {
    let mut args = Operands::new(alloc);
    args.push(Operand::Reg(Reg(0)))?;
    args.push(Operand::Const(5))?;
    Ok(VInstr::Call {
        dest: Reg(0),
        function: FunId(63),
        args,
        next: Label(6),
    })
}

#[test]
fn one_return_takes_seventeen_words(rt: HostRuntime) -> Result<(), Fail> {
    let alloc = rt.alloc();
    let checked = alone(constant_zero(alloc, "main")?)?;
    assert_eq!(rt;
        base_words(&rt, alloc, &checked)?.items(),
        RETURN.as_slice()
    );
    Ok(())
}

// An instruction of each kind but one: an anchor has no words.
fn each_kind(alloc: Global) -> Result<Sequence<VInstr>, NoMemory> {
    let value = Operand::Const(4);
    let address = Operand::Reg(Reg(1));
    let next = Label(9);
    let mut instrs = Sequence::new(alloc);
    instrs.push(VInstr::Nop { next })?;
    instrs.push(VInstr::Op {
        dest: Reg(1),
        expr: Expr::Copy(Operand::Const(-1)),
        next,
    })?;
    instrs.push(two_moves(alloc)?)?;
    instrs.push(VInstr::Cond {
        test: address,
        then_to: Label(4),
        else_to: Label(5),
    })?;
    instrs.push(call(alloc)?)?;
    instrs.push(VInstr::Return { value })?;
    instrs.push(VInstr::Print { value, next })?;
    instrs.push(VInstr::Load {
        dest: Reg(2),
        address,
        next,
    })?;
    instrs.push(VInstr::Store {
        address,
        value,
        next,
    })?;
    instrs.push(VInstr::Fail {
        function: FunId(63),
        label: Label(255),
    })?;
    instrs.push(assume(alloc)?)?;
    Ok(instrs)
}

// The words of these instructions: how many there are, then each with the number of its kind first.
const EACH_KIND: [u64; 72] = [
    11,
    1,
    9,
    2,
    1,
    0,
    1,
    u64::MAX,
    9,
    3,
    2,
    0,
    0,
    1,
    1,
    1,
    7,
    3,
    4,
    0,
    1,
    4,
    5,
    5,
    0,
    63,
    2,
    0,
    0,
    1,
    5,
    6,
    6,
    1,
    4,
    7,
    1,
    4,
    9,
    8,
    2,
    0,
    1,
    9,
    9,
    0,
    1,
    1,
    4,
    9,
    10,
    63,
    255,
    11,
    2,
    0,
    1,
    0,
    5,
    4,
    2,
    0,
    3,
    0,
    1,
    0,
    1,
    1,
    2,
    31,
    0,
    2,
];

#[test]
fn each_kind_is_written(rt: HostRuntime) -> Result<(), Fail> {
    let alloc = rt.alloc();
    let instrs = each_kind(alloc)?;
    let mut words = Words::new(alloc);
    instrs.write(&mut words)?;
    assert_eq!(rt; words.items(), EACH_KIND.as_slice());
    assert_eq!(rt; instrs.count(0), EACH_KIND.len() as u64);
    Ok(())
}
