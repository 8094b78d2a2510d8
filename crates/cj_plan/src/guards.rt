//! Guards on the parameters whose arguments agree.

ghost use Rattle.std.specs.Prelude.{◌≡◌, ◌++◌, ◌≤◌, length, IfOk, OnOk};
ghost use Rattle.cj_plan.specs.Plan.{guard_of, guards_in};
ghost use Rattle.cj_ir.specs.declared.limits.TheConstants.{MAX_PARAMS};

use crate::limits::AGREEMENTS;
use cj_ir::{Guard, Guards, NoMemory, Reg};
use cj_profile::ParamNote;
use std::alloc::Global;

/// A guard for each parameter of which enough arguments agreed: it has its last value.
pub(crate) fn guards_in(alloc: Global, params: &[ParamNote]) -> Result<Guards, NoMemory>
    requires { length params.now ≤ MAX_PARAMS }
    ensures { IfOk result (λ guards. guards ≡ guards_in params.now) }
{
    let mut guards = Guards::new(alloc);
    for (param, note) in params.iter().enumerate() {
        add_guard(&mut guards, param as u32, note)?;
    }
    Ok(guards)
}

fn add_guard(guards: &mut Guards, param: u32, note: &ParamNote) -> Result<(), NoMemory>
    ensures { OnOk result (guards.new ≡ guards.old ++ guard_of param note.now) }
{
    if note.agreed >= AGREEMENTS {
        guards.push(Guard::Is {
            reg: Reg(param),
            value: note.last,
        })?;
    }
    Ok(())
}
