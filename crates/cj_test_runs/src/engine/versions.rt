//! The run of a version, which a watch of the test's own has, and the memory that a run leaves.

ghost use Rattle.std.specs.Prelude.{◌≡◌, true, ⊤, IfOk};
ghost use Rattle.cj_draft.specs.Bodies.{IsNoAnchor, HasNoAnchors};
ghost use Rattle.cj_test_runs.specs.OneVersion.{IsOneOf};

use super::{MAIN, add_line, call_of, is_limit, named, takes};
use cj_base::End;
use cj_calls::{Look, Looks, Report};
use cj_draft::{Code, Draft, Place, VInstr, Version};
use cj_engine::{Watch, run, run_from};
use cj_ir::{
    Checked, Edge, Expr, FunId, Function, Functions, Instr, Label, Lines, Names, NoMemory, Operand,
    Program, Reg, ScriptCall, Values, check,
};
use std::alloc::Global;
use std::process::Abort;
use std::test::Fail;

const X: Operand = Operand::Reg(Reg(0));

// A watch that has a version of one function at the offset 2.
#[derive(Drop)]
struct OneVersion<'p> {
    checked: &'p Checked,
    version: Version<'p>,
    trail: Looks,
}

impl<'p> Watch for OneVersion<'p> {
    ghost use Rattle.cj_test_runs.specs.OneVersion.{one_code, one_sound};

    ghost program = { λ w. w.checked.now };

    ghost codes = { λ w. one_code 2 w.version.code };

    ghost trail = { λ w. w.trail };

    ghost went = { λ a b marks. ⊤ };

    ghost stays = { λ a b. ⊤ };

    ghost ready = { λ w. IsOneOf w.checked.now w.version };

    #[tactic(auto, unfolding(crate::specs::OneVersion::one_code, crate::specs::OneVersion::if_both))]
    fn enter(&mut self, f: FunId, _args: &[i64]) -> Result<u64, NoMemory> {
        let offset = if f.0 == self.version.code().function.0 {
            2
        } else {
            0
        };
        self.trail.push(Look {
            function: f,
            offset,
        })?;
        Ok(offset)
    }

    #[tactic(auto, using(crate::proofs::Walking::one_found))]
    fn version(&self, _f: FunId, _offset: u64) -> &Version<'_> {
        &self.version
    }

    fn branched(&mut self, _f: FunId, _label: Label, _edge: Edge) {}

    fn failed(&mut self, _f: FunId) {}

    ghost sound = { λ w ready. one_sound w.checked.now 2 w.version ready };

    ghost went_nowhere = { λ s. tt };

    ghost went_on = { λ a b c ms ns p q. tt };

    ghost stays_same = { λ s. tt };

    ghost stays_on = { λ a b c p q. tt };
}

// One is added to the parameter, which is printed and returned.
fn lines(alloc: Global) -> Result<Lines, Fail> {
    let mut code = Lines::new(alloc);
    let add = Instr::Op {
        dest: Reg(0),
        expr: Expr::Add(X, Operand::Const(1)),
        next: Label(1),
    };
    let print = Instr::Print {
        value: X,
        next: Label(2),
    };
    add_line(&mut code, 1, add)?;
    add_line(&mut code, 2, print)?;
    add_line(&mut code, 3, Instr::Return { value: X })?;
    Ok(code)
}

fn program(rt: &impl Abort, alloc: Global) -> Result<Checked, Fail> {
    let mut regs = Names::new(alloc);
    regs.push(named(rt, alloc, "x")?)?;
    let mut functions = Functions::new(alloc);
    functions.push(Function {
        name: named(rt, alloc, "main")?,
        params: 1,
        regs,
        code: lines(alloc)?,
    })?;
    Ok(check(Program { functions }).expect(rt, "a well-formed program"))
}

fn is_no_anchor(place: &Place) -> bool
    ensures { result ≡ true → IsNoAnchor place.now.instr }
{
    match place.instr {
        VInstr::Anchor { .. } => false,
        _ => true,
    }
}

fn has_no_anchors(code: &Code) -> bool
    ensures { result ≡ true → HasNoAnchors code.now }
{
    for place in code.places.items() {
        if !is_no_anchor(place) {
            return false;
        }
    }
    true
}

// The version of main that is its base body.
fn lowered<'p>(rt: &impl Abort, alloc: Global, checked: &'p Checked) -> Result<OneVersion<'p>, Fail>
    ensures ready { IfOk result (λ watch. IsOneOf checked.now watch.version) }
    ensures checked { IfOk result (λ watch. watch.checked.now ≡ checked.now) }
{
    assert!(rt; !checked.program().functions.items().is_empty());
    let draft = Draft::of_base(alloc, checked, MAIN)?;
    let (checked, _context, code) = draft.into_parts();
    assert!(rt; has_no_anchors(&code));
    Ok(OneVersion {
        checked,
        version: Version::adopt(checked, code),
        trail: Looks::new(alloc),
    })
}

// Whether the run made so many turns, printed 5, had this end, and found the version with its one look.
fn is_run(report: &Report, end: End, turns: u64) -> bool {
    report.printed.items() == [5].as_slice()
        && report.end == end
        && report.turns == turns
        && report.base_turns == turns
        && matches!(report.looks.items(), [look] if look.function == MAIN && look.offset == 2)
}

// The call of main with 4 and that limit, from a memory of one cell.
fn runs_to(
    rt: &impl Abort,
    alloc: Global,
    checked: &Checked,
    limit: u32,
    end: End,
    turns: u64,
) -> Result<(), Fail> {
    let call = call_of(alloc, 4, limit)?;
    assert!(rt; takes(checked.program(), call.function, call.args.items().len()));
    assert!(rt; is_limit(call.limit));
    let mut watch = lowered(rt, alloc, checked)?;
    let report = run(alloc, checked, &call, &mut watch)?;
    assert!(rt; is_run(&report, end, turns));
    let mut memory = Values::new(alloc);
    memory.push(8)?;
    let ran = run_from(alloc, checked, &call, memory, &mut watch)?;
    assert!(rt; is_run(&ran.report, end, turns));
    assert!(rt; ran.memory.items() == [8].as_slice());
    Ok(())
}

#[test]
fn the_run_of_a_version_to_its_end_and_to_its_limit(rt: HostRuntime) -> Result<(), Fail> {
    let alloc = rt.alloc();
    let checked = program(&rt, alloc)?;
    runs_to(&rt, alloc, &checked, 9, End::Returned(5), 3)?;
    runs_to(&rt, alloc, &checked, 3, End::Returned(5), 3)?;
    runs_to(&rt, alloc, &checked, 2, End::TurnLimit, 2)
}
