//! Where activations stand, and what stands there.

ghost use Rattle.std.specs.Prelude.{◌≡◌, ◌≢◌, ◌<◌, length, Some, IsSome, ℤ, List, ℕ, slice_get};
ghost use Rattle.cj_ir.specs.declared.language.Line.{Line};
ghost use Rattle.cj_base.specs.Machine.{entry_regs};
ghost use Rattle.cj_draft.specs.declared.instructions.VInstr.{VInstr};
ghost use Rattle.cj_draft.specs.declared.code.Place.{Place};
ghost use Rattle.cj_draft.specs.Arrives.{place_at};
ghost use Rattle.cj_activations.specs.declared.windows.Position.TheVariants.{Base, Version};
ghost use Rattle.cj_activations.specs.Windows.{active_at};
ghost use Rattle.cj_machine.specs.Versions.{entered};
ghost use Rattle.cj_machine.specs.Stepping.{StandsAt, IsCaller};

use crate::watch::Watch;
use cj_activations::Position;
use cj_draft::{Code, VInstr};
use cj_ir::{Checked, FunId, Function, Instr, Label, Reg};

/// Where a function is entered, and with how many registers.
#[derive(Clone, Copy)]
pub(crate) struct Entry {
    pub position: Position,
    pub count: usize,
}

// The entry of a function by the version at that offset, or by its base body.
pub(crate) fn entry_at<W: Watch>(
    checked: &Checked,
    function: FunId,
    offset: u64,
    watch: &W,
) -> Entry
    requires ready { W.ready watch.now }
    requires inside { function.0 < length checked.now.functions }
    requires found { offset ≢ 0 → IsSome (W.codes watch.now function offset) }
    ensures { (args : List ℤ) →
        entered checked.now (W.codes watch.now) (Some (record { function = function; offset = offset })) function args
        ≡ Some (active_at result.position (entry_regs result.count args)) }
{
    if offset == 0 {
        Entry {
            position: Position::Base {
                function,
                label: Label(0),
            },
            count: checked.function(function).regs.items().len(),
        }
    } else {
        let code = watch.version(function, offset).code();
        Entry {
            position: Position::Version {
                function,
                offset,
                label: code.entry,
            },
            count: code.regs as usize,
        }
    }
}

// The label of a position.
pub(crate) fn label_of(position: Position) -> Label
    ensures { (function : FunId) (offset : ℕ) (label : Label) → position ≡ Version function offset label → result ≡ label }
{
    match position {
        Position::Base { label, .. } | Position::Version { label, .. } => label,
    }
}

// The label of a base frame of the function, if one stands there.
pub(crate) fn base_label_in(position: Position, function: FunId) -> Option<Label>
    ensures is { (label : Label) → result ≡ Some label → position ≡ Base function label }
    ensures there { (label : Label) → position ≡ Base function label → result ≡ Some label }
{
    match position {
        Position::Base {
            function: own,
            label,
        } if own.0 == function.0 => Some(label),
        _ => None,
    }
}

// The instruction at that label of a function.
pub(crate) fn line_in(function: &Function, label: Label) -> &Instr
    requires { (line : Line) × (slice_get function.now.code label.0 ≡ Some line) }
    ensures { (line : Line) → slice_get function.now.code label.0 ≡ Some line → line.instr ≡ result.now }
{
    &function.code.items()[label.0 as usize].instr
}

// The instruction at that label of a code.
pub(crate) fn instr_in(code: &Code, label: Label) -> &VInstr
    requires { (place : Place) × (place_at code.now label ≡ Some place) }
    ensures { (place : Place) → place_at code.now label ≡ Some place → place.instr ≡ result.now }
{
    &code.places.items()[label.0 as usize].instr
}

// The instruction at that label of the version that a function has at that offset.
fn version_instr<W: Watch>(watch: &W, function: FunId, offset: u64, label: Label) -> &VInstr
    requires ready { W.ready watch.now }
    requires there { (instr : VInstr) × StandsAt (W.codes watch.now) function offset label instr }
    ensures { StandsAt (W.codes watch.now) function offset label result.now }
{
    let code = watch.version(function, offset).code();
    &code.places.items()[label.0 as usize].instr
}

/// A version's call: where its value goes, and where it goes on.
#[derive(Clone, Copy)]
pub(crate) struct Caller {
    pub dest: Reg,
    pub next: Label,
}

// The call at which a version waits.
pub(crate) fn caller_at<W: Watch>(watch: &W, function: FunId, offset: u64, label: Label) -> Caller
    requires ready { W.ready watch.now }
    requires caller { (regs : List ℤ) × IsCaller (W.codes watch.now) (record { function = function; offset = offset; label = label; regs = regs }) }
    ensures { (regs : List ℤ) (caller : IsCaller (W.codes watch.now) (record { function = function; offset = offset; label = label; regs = regs })) →
        (result.dest ≡ caller.dest) × (result.next ≡ caller.next) }
{
    match version_instr(watch, function, offset, label) {
        VInstr::Call { dest, next, .. } => Caller {
            dest: *dest,
            next: *next,
        },
        _ => unreachable!(),
    }
}
