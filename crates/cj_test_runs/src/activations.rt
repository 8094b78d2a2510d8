//! Calls, returns and a rebuild, with the registers of all activations.

ghost use Rattle.std.specs.Prelude.{◌<◌, length, OnOk};
ghost use Rattle.cj_activations.specs.Changes.{active_regs, HasDest};

use cj_activations::*;
use cj_base::{Frame, Waiting, Waitings};
use cj_ir::{FunId, Label, NoMemory, Reg, Values};
use std::alloc::Global;
use std::process::Abort;
use std::test::Fail;

const MAIN: Position = Position::Base {
    function: FunId(0),
    label: Label(0),
};

const CALLEE: Position = Position::Version {
    function: FunId(1),
    offset: 7,
    label: Label(3),
};

fn values(alloc: Global, items: &[i64]) -> Result<Values, Fail> {
    let mut values = Values::new(alloc);
    for item in items {
        values.push(*item)?;
    }
    Ok(values)
}

// A base frame that waits for a call of two inlined ones.
fn waiting(alloc: Global, items: &[i64]) -> Result<Waiting, Fail> {
    Ok(Waiting {
        function: FunId(1),
        label: Label(4),
        regs: values(alloc, items)?,
        dest: Reg(1),
    })
}

// A call of a function without registers, by an activation that has the register.
#[tactic(auto, using(cj_activations::proofs::Cuts::called_has_dest))]
fn call_main(activations: &mut Activations, dest: Reg) -> Result<(), NoMemory>
    requires { dest.0 < length (active_regs activations.old.top) }
    ensures { OnOk result (HasDest dest activations.new.waiting) }
{
    activations.call(Reg(0), Label(9), MAIN, [].as_slice(), 0)?;
    Ok(())
}

#[test]
fn a_call_appends_registers_and_a_return_cuts_them_off(rt: HostRuntime) -> Result<(), Fail> {
    let mut activations = Activations::enter(rt.alloc(), MAIN, [5, 6].as_slice(), 3)?;
    assert_eq!(rt; activations.position(), MAIN);
    assert_eq!(rt; activations.waiting(), None);
    activations.call(Reg(2), Label(1), CALLEE, [8].as_slice(), 2)?;
    assert_eq!(rt; activations.position(), CALLEE);
    assert_eq!(rt; activations.top_registers(), [8, 0].as_slice());
    assert_eq!(rt; activations.registers(), [5, 6, 0, 8, 0].as_slice());
    assert!(rt; activations.top_registers().len() == 2);
    call_main(&mut activations, Reg(1))?;
    let waits = Waits::Version {
        function: FunId(1),
        offset: 7,
        label: Label(3),
    };
    assert_eq!(rt; activations.waiting(), Some(waits));
    activations.give_back(Reg(1), Label(4), 20);
    assert_eq!(rt; activations.registers(), [5, 6, 0, 8, 20].as_slice());
    let waits = Waits::Base {
        label: Label(1),
        dest: Reg(2),
    };
    assert_eq!(rt; activations.waiting(), Some(waits));
    Ok(())
}

#[test]
fn a_rebuild_writes_the_outermost_frame_first(rt: HostRuntime) -> Result<(), Fail> {
    let mut activations = Activations::enter(rt.alloc(), MAIN, [5].as_slice(), 1)?;
    activations.call(Reg(0), Label(1), CALLEE, [8].as_slice(), 3)?;
    let top = Frame {
        function: FunId(2),
        label: Label(6),
        regs: values(rt.alloc(), [1].as_slice())?,
    };
    let mut frames = Waitings::new(rt.alloc());
    frames.push(waiting(rt.alloc(), [2, 3].as_slice())?)?;
    frames.push(waiting(rt.alloc(), [4].as_slice())?)?;
    activations.rebuild(&top, &frames)?;
    assert_eq!(rt; activations.registers(), [5, 4, 2, 3, 1].as_slice());
    let waits = Waits::Base {
        label: Label(4),
        dest: Reg(1),
    };
    assert_eq!(rt; activations.waiting(), Some(waits));
    activations.go_to(Label(8));
    assert_eq!(rt; activations.top_registers(), [1].as_slice());
    Ok(())
}
