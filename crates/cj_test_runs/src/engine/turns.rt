//! A run, turn by turn, from a given memory.

ghost use Rattle.std.specs.Prelude.{◌≡◌, ◌≤◌, true, length, ⊤, IfOk, None};
ghost use Rattle.cj_ir.specs.WellFormed.{Takes};
ghost use Rattle.cj_machine.specs.CodeMaps.{no_codes};
ghost use Rattle.cj_test_runs.specs.NoCodes.{no_codes_sound};
ghost use Rattle.cj_test_runs.specs.Walks.{Walks};

use super::{add_line, call_of, is_limit, named, takes};
use cj_base::{End, Turned};
use cj_calls::{Look, Looks};
use cj_draft::Version;
use cj_engine::{Engine, Watch};
use cj_ir::{
    Checked, Edge, FunId, Function, Functions, Instr, Label, Lines, Names, NoMemory, Operand,
    Program, Reg, ScriptCall, Values, check,
};
use std::alloc::Global;
use std::process::Abort;
use std::test::Fail;

// The parameter of a test's function, and its one other register.
const X: Operand = Operand::Reg(Reg(0));

const Y: Operand = Operand::Reg(Reg(1));

// A watch that finds base bodies alone.
#[derive(Drop)]
struct Bodies<'p> {
    checked: &'p Checked,
    trail: Looks,
}

impl<'p> Watch for Bodies<'p> {
    ghost program = { λ w. w.checked.now };

    ghost codes = { λ w. no_codes };

    ghost trail = { λ w. w.trail };

    ghost went = { λ a b marks. ⊤ };

    ghost stays = { λ a b. ⊤ };

    ghost ready = { λ w. ⊤ };

    fn enter(&mut self, f: FunId, _args: &[i64]) -> Result<u64, NoMemory> {
        self.trail.push(Look {
            function: f,
            offset: 0,
        })?;
        Ok(0)
    }

    #[tactic(auto, unfolding(cj_machine::specs::CodeMaps::no_codes))]
    fn version(&self, _f: FunId, _offset: u64) -> &Version<'_> {
        unreachable!()
    }

    fn branched(&mut self, _f: FunId, _label: Label, _edge: Edge) {}

    fn failed(&mut self, _f: FunId) {}

    ghost sound = { λ s ready. no_codes_sound s.checked.now };

    ghost went_nowhere = { λ s. tt };

    ghost went_on = { λ a b c ms ns p q. tt };

    ghost stays_same = { λ s. tt };

    ghost stays_on = { λ a b c p q. tt };
}

fn print(value: Operand, next: u32) -> Instr {
    Instr::Print {
        value,
        next: Label(next),
    }
}

// A load into the other register, from the address in the parameter.
fn load(next: u32) -> Instr {
    Instr::Load {
        dest: Reg(1),
        address: X,
        next: Label(next),
    }
}

// A load from the address in the one parameter, whose value is printed and returned.
fn lines(alloc: Global) -> Result<Lines, Fail> {
    let mut code = Lines::new(alloc);
    add_line(&mut code, 1, load(1))?;
    add_line(&mut code, 2, print(Y, 2))?;
    add_line(&mut code, 3, Instr::Return { value: Y })?;
    Ok(code)
}

fn registers(rt: &impl Abort, alloc: Global) -> Result<Names, Fail> {
    let mut regs = Names::new(alloc);
    for name in ["x", "y"] {
        regs.push(named(rt, alloc, name)?)?;
    }
    Ok(regs)
}

fn program(rt: &impl Abort, alloc: Global) -> Result<Checked, Fail> {
    let mut functions = Functions::new(alloc);
    functions.push(Function {
        name: named(rt, alloc, "main")?,
        params: 1,
        regs: registers(rt, alloc)?,
        code: lines(alloc)?,
    })?;
    Ok(check(Program { functions }).expect(rt, "a well-formed program"))
}

// A start over a memory of the cells 8 and 9.
#[tactic(auto, using(crate::proofs::Walking::run_walks))]
fn started<'p>(
    alloc: Global,
    checked: &'p Checked,
    call: &ScriptCall,
    watch: &mut Bodies<'p>,
) -> Result<Engine<'p>, NoMemory>
    requires takes { Takes checked.now.functions call.now.function (length call.now.args) }
    requires limit { (1 ≤ call.now.limit) × (call.now.limit ≤ 1000000) }
    requires program { watch.old.checked.now ≡ checked.now }
    ensures walks { IfOk result (λ engine. Walks checked.now engine.looks call.now.limit engine.state) }
    ensures checked { IfOk result (λ engine. engine.program ≡ checked.now) }
    ensures program { watch.new.checked.now ≡ checked.now }
{
    let mut memory = Values::new(alloc);
    memory.push(8)?;
    memory.push(9)?;
    let engine = Engine::start_from(alloc, checked, call, memory, watch)?;
    Ok(engine)
}

// A turn of a run with that limit. `None`: it went on.
fn turned(
    rt: &impl Abort,
    engine: &mut Engine<'_>,
    limit: u32,
    watch: &mut Bodies<'_>,
) -> Result<Option<End>, NoMemory>
    requires program { watch.old.checked.now ≡ engine.old.program }
    requires walks { Walks engine.old.program engine.old.looks limit engine.old.state }
    ensures walks { IfOk result (λ end. end ≡ None → Walks engine.new.program engine.new.looks limit engine.new.state) }
    ensures checked { engine.new.program ≡ engine.old.program }
    ensures program { watch.new.checked.now ≡ watch.old.checked.now }
{
    assert!(rt; engine.running());
    assert!(rt; engine.turns() < u64::from(limit));
    match engine.turn(watch)? {
        Turned::Running => Ok(None),
        Turned::Ended(end) => Ok(Some(end)),
    }
}

// Where a run of main is: its registers, its prints, how many turns it made, and whether it goes on.
fn is_at(
    engine: &Engine<'_>,
    registers: &[i64],
    printed: &[i64],
    turns: u64,
    running: bool,
) -> bool {
    engine.registers() == registers
        && engine.printed().items() == printed
        && engine.turns() == turns
        && engine.base_turns() == turns
        && engine.running() == running
        && engine.looks().items().len() == 1
}

// One turn, after which the run goes on, with these prints, and so many turns were made.
fn goes_to(
    rt: &impl Abort,
    engine: &mut Engine<'_>,
    limit: u32,
    watch: &mut Bodies<'_>,
    printed: &[i64],
    turns: u64,
) -> Result<(), Fail>
    requires program { watch.old.checked.now ≡ engine.old.program }
    requires walks { Walks engine.old.program engine.old.looks limit engine.old.state }
    ensures walks { IfOk result (λ done. Walks engine.new.program engine.new.looks limit engine.new.state) }
    ensures program { IfOk result (λ done. watch.new.checked.now ≡ engine.new.program) }
{
    assert!(rt; turned(rt, engine, limit, watch)?.is_none());
    assert!(rt; is_at(engine, &[1, 9], printed, turns, true));
    Ok(())
}

// The last turn, which returns that value.
fn returns(
    rt: &impl Abort,
    engine: &mut Engine<'_>,
    limit: u32,
    watch: &mut Bodies<'_>,
    want: i64,
) -> Result<(), Fail>
    requires program { watch.old.checked.now ≡ engine.old.program }
    requires walks { Walks engine.old.program engine.old.looks limit engine.old.state }
{
    let end = turned(rt, engine, limit, watch)?;
    assert!(rt; matches!(end, Some(End::Returned(value)) if value == want));
    Ok(())
}

// The turns of a load, a print and a return.
fn three_turns(
    rt: &impl Abort,
    engine: &mut Engine<'_>,
    limit: u32,
    watch: &mut Bodies<'_>,
) -> Result<(), Fail>
    requires program { watch.old.checked.now ≡ engine.old.program }
    requires walks { Walks engine.old.program engine.old.looks limit engine.old.state }
{
    assert!(rt; is_at(engine, &[1, 0], &[], 0, true));
    goes_to(rt, engine, limit, watch, &[], 1)?;
    goes_to(rt, engine, limit, watch, &[9], 2)?;
    returns(rt, engine, limit, watch, 9)?;
    assert!(rt; is_at(engine, &[1, 9], &[9], 3, false));
    assert!(rt; watch.trail.items().len() == 1);
    Ok(())
}

// The run of a call of main.
fn walk(rt: &impl Abort, alloc: Global, checked: &Checked, call: &ScriptCall) -> Result<(), Fail> {
    assert!(rt; takes(checked.program(), call.function, call.args.items().len()));
    assert!(rt; is_limit(call.limit));
    let mut watch = Bodies {
        checked,
        trail: Looks::new(alloc),
    };
    let mut engine = started(alloc, checked, call, &mut watch)?;
    three_turns(rt, &mut engine, call.limit, &mut watch)
}

#[test]
fn the_turns_of_a_load_from_a_given_memory(rt: HostRuntime) -> Result<(), Fail> {
    let alloc = rt.alloc();
    let checked = program(&rt, alloc)?;
    let call = call_of(alloc, 1, 9)?;
    walk(&rt, alloc, &checked, &call)
}
