//! A code by hand: an assignment, a swap and an Assume behind a store that fails. No run comes to them, but the facts go on.

ghost use Rattle.std.specs.Prelude.{◌≡◌, true, IfOk, List, ℤ, negsuc};
ghost use Rattle.cj_ir.specs.declared.language.Operand.TheVariants as operand;
ghost use Rattle.cj_ir.specs.declared.language.Guard.TheVariants.{Is};
ghost use Rattle.cj_base.specs.Machine.{Faults, BadAddress};
ghost use Rattle.cj_draft.specs.declared.instructions.VInstr.TheVariants.{Assume};
ghost use Rattle.cj_draft.specs.Effects.{version_effect, Plain};
ghost use Rattle.cj_test_passes.specs.ByHand.{reg, label, failing, six, swap, guards, place, behind};

use super::{has_facts, is_unreached};
use cj_const::knowledge::{known, row_of};
use cj_const::{fold, strongest};
use cj_draft::laws::base_body_is_sound;
use cj_draft::{
    Backs, Code, Draft, Fact, FactList, FactTable, Facts, Pair, Pairs, Place, Places, Point, VInstr,
};
use cj_ir::{
    Checked, Duplicate, Expr, FunId, Function, Guard, Guards, Instr, Label, NoMemory, Operand, Reg,
};
use cj_samples::{alone, function, lines};
use std::alloc::Global;
use std::process::Abort;
use std::test::Fail;

// main(n; r): store [-1] = 0
fn program(alloc: Global) -> Result<Checked, Fail> {
    let store = Instr::Store {
        address: Operand::Const(-1),
        value: Operand::Const(0),
        next: Label(0),
    };
    let instrs = vec![in alloc; store]?;
    Ok(alone(function(alloc, "main", lines(alloc, instrs)?)?)?)
}

// No memory has the address.
fn is_nowhere(address: Operand) -> bool
    ensures { result ≡ true → address ≡ operand.Const (negsuc 0) }
{
    match address {
        Operand::Reg(_) => false,
        Operand::Const(value) => value == -1,
    }
}

// Whether an instruction is a store that fails.
fn fails(instr: &VInstr) -> bool
    ensures { result ≡ true → (regs m : List ℤ) → version_effect instr.now regs m ≡ Plain (Faults (BadAddress (negsuc 0))) }
{
    match instr {
        VInstr::Store { address, .. } => is_nowhere(*address),
        _ => false,
    }
}

fn placed(point: &Point, facts: Facts, instr: VInstr) -> Result<Place, NoMemory>
    ensures { IfOk result (λ made. made ≡ place point.now facts instr) }
{
    let backs = Backs::new(point.frames.allocator());
    let point = point.copy()?;
    Ok(Place {
        instr,
        point,
        facts,
        backs,
    })
}

fn store() -> VInstr
    ensures { result ≡ failing }
{
    VInstr::Store {
        address: Operand::Const(-1),
        value: Operand::Const(0),
        next: Label(1),
    }
}

fn copied_six() -> VInstr
    ensures { result ≡ six }
{
    VInstr::Op {
        dest: Reg(1),
        expr: Expr::Copy(Operand::Const(6)),
        next: Label(2),
    }
}

fn swapped(alloc: Global) -> Result<VInstr, NoMemory>
    ensures { IfOk result (λ instr. instr ≡ swap) }
{
    let mut pairs = Pairs::new(alloc);
    pairs.push(Pair {
        dest: Reg(0),
        value: Operand::Reg(Reg(1)),
    })?;
    pairs.push(Pair {
        dest: Reg(1),
        value: Operand::Reg(Reg(0)),
    })?;
    Ok(VInstr::Move {
        pairs,
        next: Label(3),
    })
}

fn is(number: u32, value: i64) -> Guard
    ensures { result ≡ Is (reg number) value }
{
    Guard::Is {
        reg: Reg(number),
        value,
    }
}

fn assumed(alloc: Global, point: &Point) -> Result<VInstr, NoMemory>
    ensures { IfOk result (λ instr. instr ≡ Assume guards 0 point.now (label 4)) }
{
    let mut guards = Guards::new(alloc);
    guards.push(is(0, 6))?;
    guards.push(is(0, 5))?;
    guards.push(is(1, 6))?;
    let target = point.copy()?;
    Ok(VInstr::Assume {
        guards,
        back: 0,
        target,
        next: Label(4),
    })
}

// The places of the code.
fn places(alloc: Global, point: &Point) -> Result<Places, NoMemory>
    ensures { IfOk result (λ made. made ≡ behind point.now) }
{
    let mut places = Places::new(alloc);
    places.push(placed(point, Facts::Known(FactList::new(alloc)), store())?)?;
    places.push(placed(point, Facts::Unreached, copied_six())?)?;
    places.push(placed(point, Facts::Unreached, swapped(alloc)?)?)?;
    places.push(placed(point, Facts::Unreached, assumed(alloc, point)?)?)?;
    let value = Operand::Reg(Reg(1));
    places.push(placed(point, Facts::Unreached, VInstr::Return { value })?)?;
    Ok(places)
}

// Whether a function has a parameter and another register, and its base body begins with a store that fails.
fn is_store(main: &Function, base: &Code, first: &Place) -> bool
    ensures params { result ≡ true → main.now.params ≡ 1 }
    ensures registers { result ≡ true → base.now.regs ≡ 2 }
    ensures fails { result ≡ true → (regs m : List ℤ) → version_effect first.now.instr regs m ≡ Plain (Faults (BadAddress (negsuc 0))) }
{
    main.params == 1 && base.regs == 2 && fails(&first.instr)
}

// The code in the context in which n is 5.
fn draft<'p>(rt: &impl Abort, alloc: Global, checked: &'p Checked) -> Result<Draft<'p>, Fail> {
    let number = FunId(0);
    assert!(rt; !checked.program().functions.items().is_empty());
    let main = checked.function(number);
    let (_, _, base) = Draft::of_base(alloc, checked, number)?.into_parts();
    base_body_is_sound();
    let Some(first) = base.places.items().get(0) else {
        return Err(Fail::from("the base body has no place"));
    };
    if !is_store(main, &base, first) {
        return Err(Fail::from("the base body is no store"));
    }
    let mut context = FactList::new(alloc);
    context.push(fact(0, 5))?;
    let code = Code {
        function: number,
        regs: 2,
        entry: Label(0),
        places: places(alloc, &first.point)?,
    };
    Ok(Draft::adopt_in(checked, context, code))
}

fn fact(number: u32, value: i64) -> Fact
    ensures { result ≡ record { reg = reg number; value = value } }
{
    Fact {
        reg: Reg(number),
        value,
    }
}

fn facts_of(rt: &impl Abort, alloc: Global) -> Result<FactTable, Fail> {
    let checked = program(alloc)?;
    let draft = draft(rt, alloc, &checked)?;
    Ok(strongest(alloc, &draft)?)
}

fn folded(rt: &impl Abort, alloc: Global) -> Result<Code, Fail> {
    let checked = program(alloc)?;
    let (_, _, code) = fold(draft(rt, alloc, &checked)?)?.into_parts();
    Ok(code)
}

fn assumes(code: &Code, at: usize, want: &[Guard]) -> bool {
    match code.places.items().get(at) {
        Some(place) => match &place.instr {
            VInstr::Assume { guards, .. } => guards.items() == want,
            _ => false,
        },
        None => false,
    }
}

#[test]
fn the_context_is_known_at_the_entry(rt: HostRuntime) -> Result<(), Fail> {
    let facts = facts_of(&rt, rt.alloc())?;
    assert!(rt; has_facts(&facts, 0, &[fact(0, 5)]));
    assert!(rt; has_facts(&facts, 1, &[fact(0, 5)]));
    Ok(())
}

#[test]
fn a_move_assigns_all_at_once(rt: HostRuntime) -> Result<(), Fail> {
    let facts = facts_of(&rt, rt.alloc())?;
    assert!(rt; has_facts(&facts, 2, &[fact(0, 5), fact(1, 6)]));
    assert!(rt; has_facts(&facts, 3, &[fact(0, 6), fact(1, 5)]));
    Ok(())
}

#[test]
fn nothing_goes_on_behind_a_false_guard(rt: HostRuntime) -> Result<(), Fail> {
    let facts = facts_of(&rt, rt.alloc())?;
    assert!(rt; is_unreached(&facts, 4));
    Ok(())
}

#[test]
fn a_false_guard_stands_for_all(rt: HostRuntime) -> Result<(), Fail> {
    let code = folded(&rt, rt.alloc())?;
    assert!(rt; assumes(&code, 3, &[Guard::Never]));
    Ok(())
}

// No draft has two facts of a register.
#[test]
fn the_first_fact_of_a_register_is_told(rt: HostRuntime) -> Result<(), Fail> {
    let row = row_of(rt.alloc(), &[fact(1, 5), fact(1, 6)], 2)?;
    assert_eq!(rt; known(row.items(), Reg(1)), Some(5));
    Ok(())
}
