//! Drafts with Moves and Assumes. Each begins with a store that fails, so no run comes behind it, but the facts go on.

ghost use Rattle.std.specs.Prelude.{◌≡◌, ◌<◌, ◌≤◌, true, All, IfOk, List, ℤ, length, negsuc, slice_get};
ghost use Rattle.cj_ir.specs.Values.{IsOperandWithin};
ghost use Rattle.cj_ir.specs.declared.language.Operand.TheVariants as operand;
ghost use Rattle.cj_base.specs.Machine.{Faults, BadAddress};
ghost use Rattle.cj_draft.specs.declared.limits.TheConstants.{MAX_GUARDS};
ghost use Rattle.cj_draft.specs.Effects.{version_effect, Plain};
ghost use Rattle.cj_draft.specs.Sound.{guard_next};
ghost use Rattle.cj_draft.specs.WellNamed.{ArePairsFine, IsGuardWithin};
ghost use Rattle.cj_test_passes.specs.ByHand.{reg, failing, place};
ghost use Rattle.cj_test_passes.specs.Behind.{IsNamedOver, IsDead, AreBehind, is_free, ends_by, are_ended};

use super::{Numbers, are_same, count, program};
use cj_draft::laws::base_body_is_sound;
use cj_draft::{
    Backs, Code, Draft, Fact, FactList, FactTable, Facts, Pair, Pairs, Place, Places, Point, VInstr,
};
use cj_ir::{
    Checked, Duplicate, Expr, FunId, Function, Guard, Guards, Instr, Label, Line, Lines, NoMemory,
    Operand, Reg,
};
use cj_sparse::strongest;
use std::alloc::Global;
use std::process::Abort;
use std::test::Fail;

// What stands behind the store: known instructions, or ones that follow from a number.
#[derive(Clone, Copy)]
enum Sample {
    Known,
    Made { seed: u64 },
}

impl Numbers {
    // In a turn registers get each other's values.
    fn moved(&mut self, turns: bool, other: u32) -> Operand
        requires { other < 4 }
        ensures { IsOperandWithin 4 result }
    {
        if turns {
            return Operand::Reg(Reg(other));
        }
        self.operand()
    }

    // A pair for each register from one on to another.
    fn pairs(
        &mut self,
        alloc: Global,
        turns: bool,
        first: u32,
        last: u32,
    ) -> Result<Pairs, NoMemory>
        requires order { first ≤ last }
        requires within { last < 4 }
        ensures { IfOk result (ArePairsFine 4) }
    {
        let mut pairs = Pairs::new(alloc);
        for reg in first..last + 1 {
            let value = self.moved(turns, last - (reg - first));
            let dest = Reg(reg);
            pairs.push(Pair { dest, value })?;
        }
        Ok(pairs)
    }

    // Two to four registers in a row. Half of the moves turn them round.
    fn move_to(&mut self, point: &Point, next: Label) -> Result<VInstr, NoMemory>
        requires { next.0 < 16 }
        ensures { IfOk result (IsNamedOver point.now) }
    {
        let turns = self.below(2) == 0;
        let first = self.below(3) as u32;
        let last = first + 1 + self.below(3 - first as u64) as u32;
        let pairs = self.pairs(point.frames.allocator(), turns, first, last)?;
        Ok(VInstr::Move { pairs, next })
    }

    // Of few registers and values, so that guards clash.
    fn guard(&mut self) -> Guard
        ensures { IsGuardWithin 4 result }
    {
        if self.below(16) == 0 {
            return Guard::Never;
        }
        is(1 + self.below(2) as u32, self.below(2) as i64)
    }

    fn guards(&mut self, alloc: Global) -> Result<Guards, NoMemory>
        ensures within { IfOk result (All (IsGuardWithin 4)) }
        ensures few { IfOk result (λ guards. length guards ≤ MAX_GUARDS) }
    {
        let mut guards = Guards::new(alloc);
        for _guard in 0..1 + self.below(3) {
            guards.push(self.guard())?;
        }
        Ok(guards)
    }

    fn assume(&mut self, point: &Point, next: Label) -> Result<VInstr, NoMemory>
        requires { next.0 < 16 }
        ensures { IfOk result (IsNamedOver point.now) }
    {
        let guards = self.guards(point.frames.allocator())?;
        let assume = assumed(point, guards, next)?;
        Ok(assume)
    }

    fn cond_behind(&mut self, point: &Point) -> VInstr
        ensures { IsNamedOver point.now result }
    {
        VInstr::Cond {
            test: self.operand(),
            then_to: self.label(),
            else_to: self.label(),
        }
    }

    fn op_behind(&mut self, point: &Point, next: Label) -> VInstr
        requires { next.0 < 16 }
        ensures { IsNamedOver point.now result }
    {
        VInstr::Op {
            dest: self.reg(),
            expr: self.expr(),
            next,
        }
    }

    fn load_behind(&mut self, point: &Point, next: Label) -> VInstr
        requires { next.0 < 16 }
        ensures { IsNamedOver point.now result }
    {
        VInstr::Load {
            dest: self.reg(),
            address: self.operand(),
            next,
        }
    }

    // Mostly it goes on at the next label. An Assume may stand at every second label alone, so none goes on to another.
    fn made(&mut self, point: &Point, next: Label) -> Result<VInstr, NoMemory>
        requires { next.0 < 16 }
        ensures { IfOk result (IsNamedOver point.now) }
    {
        if next.0 % 2 == 1 && self.below(2) == 0 {
            return self.assume(point, next);
        }
        match self.below(12) {
            0 | 1 | 2 => self.move_to(point, next),
            3 | 4 | 5 => Ok(self.cond_behind(point)),
            6 => Ok(self.load_behind(point, next)),
            7 => Ok(VInstr::Nop { next: self.label() }),
            _ => Ok(self.op_behind(point, next)),
        }
    }

    // Two registers that are known are swapped, the first Assume tells of a third one, and the second one's guards clash.
    fn known(&mut self, point: &Point, next: Label) -> Result<VInstr, NoMemory>
        requires { next.0 < 16 }
        ensures { IfOk result (IsNamedOver point.now) }
    {
        let alloc = point.frames.allocator();
        match next.0 {
            2 => Ok(six(point, next)),
            3 => {
                let pairs = self.pairs(alloc, true, 0, 1)?;
                Ok(VInstr::Move { pairs, next })
            }
            4 => assumed(point, two(alloc, is(0, 6), is(2, 7))?, next),
            6 => assumed(point, two(alloc, is(3, 1), is(3, 2))?, next),
            _ => Ok(VInstr::Nop { next }),
        }
    }

    fn instr_of(&mut self, sample: Sample, point: &Point, next: Label) -> Result<VInstr, NoMemory>
        ensures { IfOk result (IsNamedOver point.now) }
    {
        if next.0 >= 16 {
            return Ok(VInstr::Return {
                value: Operand::Reg(Reg(1)),
            });
        }
        match sample {
            Sample::Known => self.known(point, next),
            Sample::Made { .. } => self.made(point, next),
        }
    }
}

fn six(point: &Point, next: Label) -> VInstr
    requires { next.0 < 16 }
    ensures { IsNamedOver point.now result }
{
    VInstr::Op {
        dest: Reg(1),
        expr: Expr::Copy(Operand::Const(6)),
        next,
    }
}

fn is(number: u32, value: i64) -> Guard
    requires { number < 4 }
    ensures { IsGuardWithin 4 result }
{
    Guard::Is {
        reg: Reg(number),
        value,
    }
}

fn two(alloc: Global, one: Guard, other: Guard) -> Result<Guards, NoMemory>
    requires one { IsGuardWithin 4 one }
    requires other { IsGuardWithin 4 other }
    ensures within { IfOk result (All (IsGuardWithin 4)) }
    ensures few { IfOk result (λ guards. length guards ≤ MAX_GUARDS) }
{
    let mut guards = Guards::new(alloc);
    guards.push(one)?;
    guards.push(other)?;
    Ok(guards)
}

fn assumed(point: &Point, guards: Guards, next: Label) -> Result<VInstr, NoMemory>
    requires within { All (IsGuardWithin 4) guards }
    requires few { length guards ≤ MAX_GUARDS }
    requires next { next.0 < 16 }
    ensures { IfOk result (IsNamedOver point.now) }
{
    let target = point.copy()?;
    Ok(VInstr::Assume {
        guards,
        back: 0,
        target,
        next,
    })
}

fn placed(point: &Point, facts: Facts, instr: VInstr) -> Result<Place, NoMemory>
    ensures { IfOk result (λ made. made ≡ place point.now facts instr) }
{
    let backs = Backs::new(point.frames.allocator());
    let point = point.copy()?;
    Ok(Place {
        instr,
        point,
        facts,
        backs,
    })
}

fn dead(point: &Point, instr: VInstr) -> Result<Place, NoMemory>
    requires { IsNamedOver point.now instr }
    ensures { IfOk result (IsDead point.now) }
{
    let place = placed(point, Facts::Unreached, instr)?;
    Ok(place)
}

fn store() -> VInstr
    ensures { result ≡ failing }
{
    VInstr::Store {
        address: Operand::Const(-1),
        value: Operand::Const(0),
        next: Label(1),
    }
}

fn first_of(point: &Point) -> Result<Places, NoMemory>
    ensures { IfOk result (AreBehind point.now 0) }
{
    let alloc = point.frames.allocator();
    let mut places = Places::new(alloc);
    places.push(placed(point, Facts::Known(FactList::new(alloc)), store())?)?;
    Ok(places)
}

fn places(point: &Point, sample: Sample) -> Result<Places, NoMemory>
    ensures { IfOk result (AreBehind point.now 15) }
{
    let last = match sample {
        Sample::Known => 0,
        Sample::Made { seed } => seed,
    };
    let mut numbers = Numbers { last };
    let mut places = first_of(point)?;
    for at in 0..15u32 {
        let instr = numbers.instr_of(sample, point, Label(at + 2))?;
        places.push(dead(point, instr)?)?;
    }
    Ok(places)
}

#[tactic(auto, unfolding(cj_draft::specs::Sound::guard_next))]
fn guard_next(instr: &VInstr) -> Option<Label>
    ensures { result ≡ guard_next instr.now }
{
    match *instr {
        VInstr::Assume { next, .. } | VInstr::Anchor { next, .. } => Some(next),
        _ => None,
    }
}

#[tactic(auto, unfolding(crate::specs::Behind::is_free))]
fn is_free(places: &[Place], label: Label) -> bool
    ensures { result ≡ is_free (slice_get places.now label.0) }
{
    match places.get(label.0 as usize) {
        Some(place) => guard_next(&place.instr).is_none(),
        None => true,
    }
}

#[tactic(auto, unfolding(crate::specs::Behind::ends_by))]
fn ends_by(places: &[Place], next: Option<Label>) -> bool
    ensures { result ≡ ends_by places.now next }
{
    match next {
        Some(next) => is_free(places, next),
        None => true,
    }
}

// Whether no Assume goes on to another.
#[tactic(auto, unfolding(crate::specs::Behind::are_ended))]
fn are_ended(places: &[Place]) -> bool
    ensures { result ≡ are_ended places.now }
{
    places
        .iter()
        .all(|place| ends_by(places, guard_next(&place.instr)))
}

// main(n; r, s, t): store [-1] = 0
fn program_that_fails(rt: &impl Abort, alloc: Global) -> Result<Checked, Fail> {
    let mut code = Lines::new(alloc);
    code.push(Line {
        name: 1,
        instr: Instr::Store {
            address: Operand::Const(-1),
            value: Operand::Const(0),
            next: Label(0),
        },
    })?;
    program(rt, alloc, code)
}

// No memory has the address.
fn is_nowhere(address: Operand) -> bool
    ensures { result ≡ true → address ≡ operand.Const (negsuc 0) }
{
    match address {
        Operand::Reg(_) => false,
        Operand::Const(value) => value == -1,
    }
}

// Whether an instruction is a store that fails.
fn fails(instr: &VInstr) -> bool
    ensures { result ≡ true → (regs m : List ℤ) → version_effect instr.now regs m ≡ Plain (Faults (BadAddress (negsuc 0))) }
{
    match instr {
        VInstr::Store { address, .. } => is_nowhere(*address),
        _ => false,
    }
}

// Whether a function has a parameter and three other registers, and its base body begins with a store that fails.
fn is_store(main: &Function, base: &Code, first: &Place) -> bool
    ensures params { result ≡ true → main.now.params ≡ 1 }
    ensures registers { result ≡ true → base.now.regs ≡ 4 }
    ensures fails { result ≡ true → (regs m : List ℤ) → version_effect first.now.instr regs m ≡ Plain (Faults (BadAddress (negsuc 0))) }
{
    main.params == 1 && base.regs == 4 && fails(&first.instr)
}

// The code in the context in which n is 5.
fn draft<'p>(
    rt: &impl Abort,
    alloc: Global,
    checked: &'p Checked,
    sample: Sample,
) -> Result<Draft<'p>, Fail> {
    let number = FunId(0);
    assert!(rt; !checked.program().functions.items().is_empty());
    let main = checked.function(number);
    let (_, _, base) = Draft::of_base(alloc, checked, number)?.into_parts();
    base_body_is_sound();
    let Some(first) = base.places.items().get(0) else {
        return Err(Fail::from("the base body has no place"));
    };
    if !is_store(main, &base, first) {
        return Err(Fail::from("the base body is no store"));
    }
    let mut context = FactList::new(alloc);
    context.push(fact(0, 5))?;
    let places = places(&first.point, sample)?;
    if !are_ended(places.items()) {
        return Err(Fail::from("an Assume goes on to another"));
    }
    let code = Code {
        function: number,
        regs: 4,
        entry: Label(0),
        places,
    };
    Ok(Draft::adopt_in(checked, context, code))
}

fn fact(number: u32, value: i64) -> Fact
    ensures { result ≡ record { reg = reg number; value = value } }
{
    Fact {
        reg: Reg(number),
        value,
    }
}

// The strongest facts of a draft. `None`: the two searches find different ones.
fn facts_of(rt: &impl Abort, alloc: Global, sample: Sample) -> Result<Option<FactTable>, Fail> {
    let checked = program_that_fails(rt, alloc)?;
    let draft = draft(rt, alloc, &checked, sample)?;
    let sparse = strongest(alloc, &draft)?;
    let dense = cj_const::strongest(alloc, &draft)?;
    if are_same(sparse.items(), dense.items()) {
        return Ok(Some(sparse));
    }
    Ok(None)
}

fn has_facts(table: &[Facts], at: usize, want: &[Fact]) -> bool {
    match table.get(at) {
        Some(Facts::Known(facts)) => facts.items() == want,
        _ => false,
    }
}

fn is_unreached(table: &[Facts], at: usize) -> bool {
    matches!(table.get(at), Some(Facts::Unreached))
}

#[test]
fn known_registers_are_swapped(rt: HostRuntime) -> Result<(), Fail> {
    let Some(table) = facts_of(&rt, rt.alloc(), Sample::Known)? else {
        return Err(Fail::from("the searches differ"));
    };
    assert!(rt; has_facts(table.items(), 2, &[fact(0, 5), fact(1, 6)]));
    assert!(rt; has_facts(table.items(), 3, &[fact(0, 6), fact(1, 5)]));
    Ok(())
}

#[test]
fn nothing_passes_guards_that_clash(rt: HostRuntime) -> Result<(), Fail> {
    let Some(table) = facts_of(&rt, rt.alloc(), Sample::Known)? else {
        return Err(Fail::from("the searches differ"));
    };
    assert!(rt; has_facts(table.items(), 5, &[fact(0, 6), fact(1, 5), fact(2, 7)]));
    assert!(rt; is_unreached(table.items(), 6));
    Ok(())
}

#[test]
fn both_searches_go_behind_moves_and_assumes(rt: HostRuntime) -> Result<(), Fail> {
    let mut facts = 0usize;
    for seed in 0..600u64 {
        let Some(table) = facts_of(&rt, rt.alloc(), Sample::Made { seed })? else {
            return Err(Fail::from("the searches differ"));
        };
        facts = facts.saturating_add(count(table.items()));
    }
    assert!(rt; facts > 600);
    Ok(())
}
