//! The base body of a function, as a draft.

ghost use Rattle.std.specs.Prelude.{◌≡◌, ◌<◌, ◌≤◌, [], length, IfOk};
ghost use Rattle.cj_ir.specs.WellFormed.{IsWellFormed};
ghost use Rattle.cj_draft.specs.BaseBody.{as_version, identity, base_point, base_place, base_places, base_code};
ghost use Rattle.cj_ir.specs.declared.limits.TheConstants.{MAX_LABELS};

use crate::code::{Backs, Code, Place, Places};
use crate::drafts::Draft;
use crate::facts::{FactList, Facts};
use crate::instructions::VInstr;
use crate::points::{Frames, Point, PointFrame};
use cj_ir::{
    Checked, Duplicate, FunId, Instr, Label, Line, NoMemory, Operand, Operands, Program, Reg,
};
use std::alloc::Global;

impl<'p> Draft<'p> {
    /// The base body of the function: as many registers, the same labels, and at each label its base instruction, the
    /// one frame of that label with every register mapped to itself, no facts and no pairs. The context is empty.
    pub fn of_base(alloc: Global, checked: &'p Checked, f: FunId) -> Result<Draft<'p>, NoMemory>
        requires { f.0 < length checked.now.functions }
        ensures { IfOk result (λ draft. draft ≡ record { program = checked.now; context = []; code = base_code checked.now f }) }
    {
        let code = base_code(alloc, checked.program(), f)?;
        Ok(Draft::adopt(checked, code))
    }
}

#[tactic(auto, using(crate::proofs::BasePlaces::base_code_of))]
fn base_code(alloc: Global, program: &Program, f: FunId) -> Result<Code, NoMemory>
    requires inside { f.0 < length program.now.functions }
    requires well_formed { IsWellFormed program.now }
    ensures { IfOk result (λ code. code ≡ base_code program.now f) }
{
    let function = program.function(f);
    let regs = function.regs.items().len() as u32;
    let places = base_places(alloc, f, regs, function.code.items())?;
    Ok(Code {
        function: f,
        regs,
        entry: Label(0),
        places,
    })
}

#[tactic(auto, using(crate::proofs::BasePlaces::base_places_none, crate::proofs::BasePlaces::base_places_more))]
fn base_places(alloc: Global, f: FunId, regs: u32, lines: &[Line]) -> Result<Places, NoMemory>
    requires { length lines.now ≤ MAX_LABELS }
    ensures { IfOk result (λ places. places ≡ base_places f regs lines.now) }
{
    let mut places = Places::new(alloc);
    for (index, line) in lines.iter().enumerate() {
        places.push(base_place(alloc, f, regs, Label(index as u32), &line.instr)?)?;
    }
    Ok(places)
}

#[tactic(auto, unfolding(crate::specs::BaseBody::base_place))]
fn base_place(
    alloc: Global,
    f: FunId,
    regs: u32,
    label: Label,
    instr: &Instr,
) -> Result<Place, NoMemory>
    ensures { IfOk result (λ place. place ≡ base_place f regs label instr.now) }
{
    let instr = as_version(f, label, instr)?;
    let point = base_point(alloc, f, regs, label)?;
    Ok(Place {
        instr,
        point,
        facts: Facts::Known(FactList::new(alloc)),
        backs: Backs::new(alloc),
    })
}

#[tactic(auto, unfolding(crate::specs::BaseBody::base_point))]
fn base_point(alloc: Global, f: FunId, regs: u32, label: Label) -> Result<Point, NoMemory>
    ensures { IfOk result (λ point. point ≡ base_point f regs label) }
{
    let frame = PointFrame {
        function: f,
        label,
        dest: Reg(0),
        map: identity(alloc, regs)?,
    };
    let mut frames = Frames::new(alloc);
    frames.push(frame)?;
    Ok(Point { frames })
}

#[tactic(auto, using(crate::proofs::BasePlaces::identity_none, crate::proofs::BasePlaces::identity_more))]
fn identity(alloc: Global, count: u32) -> Result<Operands, NoMemory>
    ensures { IfOk result (λ map. map ≡ identity count) }
{
    let mut map = Operands::new(alloc);
    for reg in 0..count {
        map.push(Operand::Reg(Reg(reg)))?;
    }
    Ok(map)
}

#[tactic(auto, unfolding(crate::specs::BaseBody::as_version))]
fn as_version(f: FunId, label: Label, instr: &Instr) -> Result<VInstr, NoMemory>
    ensures { IfOk result (λ made. made ≡ as_version f label instr.now) }
{
    Ok(match *instr {
        Instr::Nop { next } => VInstr::Nop { next },
        Instr::Op { dest, expr, next } => VInstr::Op { dest, expr, next },
        Instr::Cond {
            test,
            then_to,
            else_to,
        } => VInstr::Cond {
            test,
            then_to,
            else_to,
        },
        Instr::Call {
            dest,
            function,
            ref args,
            next,
        } => {
            let args = args.copy()?;
            VInstr::Call {
                dest,
                function,
                args,
                next,
            }
        }
        Instr::Return { value } => VInstr::Return { value },
        Instr::Print { value, next } => VInstr::Print { value, next },
        Instr::Load {
            dest,
            address,
            next,
        } => VInstr::Load {
            dest,
            address,
            next,
        },
        Instr::Store {
            address,
            value,
            next,
        } => VInstr::Store {
            address,
            value,
            next,
        },
        Instr::Fail { .. } => VInstr::Fail { function: f, label },
    })
}
