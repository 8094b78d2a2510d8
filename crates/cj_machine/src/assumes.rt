//! The Assume of a version: it passes, or base frames take the version's place.

ghost use Rattle.std.specs.Prelude.{◌≡◌, ◌≤◌, ◌++◌, ◌∷◌, [], length, ℤ, List, All, IfOk, IfErr, OnOk, OnErr};
ghost use Rattle.cj_ir.specs.declared.language.Program.{Program};
ghost use Rattle.cj_base.specs.declared.machine.Turned.TheVariants.{Running};
ghost use Rattle.cj_draft.specs.declared.instructions.VInstr.TheVariants.{Assume};
ghost use Rattle.cj_draft.specs.Effects.{version_effect, guard_holds, guards_hold};
ghost use Rattle.cj_draft.specs.WellNamed.{IsPointFine, IsGuardWithin};
ghost use Rattle.cj_draft.specs.Points.{frames_of};
ghost use Rattle.cj_activations.specs.Activations.{VersionFrame, InVersion};
ghost use Rattle.cj_activations.specs.Changes.{active_regs};
ghost use Rattle.cj_activations.specs.Changes.{rebuilt as frames_rebuilt};
ghost use Rattle.cj_machine.specs.Versions.{rebuilt, passed, keep_note};
ghost use Rattle.cj_machine.specs.Machines.{state_of, IsEarly};
ghost use Rattle.cj_machine.specs.Stepping.{IsVersionStep, VersionTakesMemory};

use crate::machine::Machine;
use crate::steps::Step;
use cj_activations::Activations;
use cj_base::Turned;
use cj_calls::{MAX_NOTES, Note, Notes};
use cj_draft::Point;
use cj_ir::{Guard, Guards, Label, NoMemory};

impl Machine {
    // An Assume: it passes, or base frames take the version's place.
    pub(crate) fn assume(
        &mut self,
        guards: &Guards,
        back: u32,
        target: &Point,
        next: Label,
    ) -> Result<Step, NoMemory>
        requires early { IsEarly (state_of self.old) }
        requires back { back ≤ self.old.base_turns }
        requires guards { All (IsGuardWithin (length (active_regs self.old.activations.top))) guards.now }
        requires point { (P : Program) × IsPointFine P (length (active_regs self.old.activations.top)) target.now }
        ensures made { IfOk result (λ step. (args : List ℤ) →
            IsVersionStep (Assume guards.now back target.now next) args (state_of self.old) (state_of self.new) step) }
        ensures looks { IfOk result (λ step. self.new.looks ≡ self.old.looks) }
        ensures no_memory { OnErr result (self.new ≡ self.old) }
        ensures only_then { IfErr result (λ refused.
            VersionTakesMemory (version_effect (Assume guards.now back target.now next) (active_regs self.old.activations.top) self.old.memory)) }
    {
        if guards_hold(guards.items(), self.activations.top_registers()) {
            Ok(Step::from(self.pass(next)))
        } else {
            self.rebuild(back, target)?;
            Ok(Step::Fails)
        }
    }

    // The guards of an Assume hold.
    #[tactic(auto, using(crate::proofs::Landing::passes), unfolding(crate::specs::Machines::state_of))]
    pub(crate) fn pass(&mut self, next: Label) -> Turned
        requires early { IsEarly (state_of self.old) }
        ensures running { result ≡ Running }
        ensures made { (v : VersionFrame) → self.old.activations.top ≡ InVersion v → state_of self.new ≡ passed (state_of self.old) v next }
        ensures looks { self.new.looks ≡ self.old.looks }
    {
        self.activations.go_to(next);
        self.turns += 1;
        Turned::Running
    }

    // A guard fails: base frames take the version's place, `back` base turns ago, and a note says so.
    #[tactic(auto, unfolding(crate::specs::Machines::state_of))]
    fn rebuild(&mut self, back: u32, target: &Point) -> Result<(), NoMemory>
        requires early { IsEarly (state_of self.old) }
        requires back { back ≤ self.old.base_turns }
        requires point { (P : Program) × IsPointFine P (length (active_regs self.old.activations.top)) target.now }
        ensures made { OnOk result ((P : Program) → state_of self.new ≡ rebuilt (state_of self.old) back (frames_of P target.now (active_regs self.old.activations.top))) }
        ensures looks { self.new.looks ≡ self.old.looks }
        ensures no_memory { OnErr result (self.new ≡ self.old) }
    {
        let (top, waiting) = target.frames(self.activations.top_registers())?;
        let turn = self.base_turns - u64::from(back);
        let note = Note { turn, top, waiting };
        take_place(&mut self.activations, &mut self.notes, note)?;
        self.turns += 1;
        self.base_turns = turn;
        self.fails += 1;
        Ok(())
    }
}

// A note's frames take the place of the top, and the note is kept if it is among the first.
#[tactic(auto, unfolding(crate::specs::Versions::keep_note))]
fn take_place(activations: &mut Activations, notes: &mut Notes, note: Note) -> Result<(), NoMemory>
    ensures activations { OnOk result (activations.new ≡ frames_rebuilt activations.old note.top note.waiting) }
    ensures notes { OnOk result (notes.new ≡ keep_note notes.old note) }
    ensures no_memory { OnErr result ((activations.new ≡ activations.old) × (notes.new ≡ notes.old)) }
{
    if notes.items().len() < MAX_NOTES {
        keep(activations, notes, note)?;
    } else {
        activations.rebuild(&note.top, &note.waiting)?;
    }
    Ok(())
}

// A note's frames take the place of the top, and the note is kept.
fn keep(activations: &mut Activations, notes: &mut Notes, note: Note) -> Result<(), NoMemory>
    ensures activations { OnOk result (activations.new ≡ frames_rebuilt activations.old note.top note.waiting) }
    ensures notes { OnOk result (notes.new ≡ notes.old ++ note ∷ []) }
    ensures no_memory { OnErr result ((activations.new ≡ activations.old) × (notes.new ≡ notes.old)) }
{
    let last = notes.items().len();
    notes.push(note)?;
    let kept = &notes.items()[last];
    if activations.rebuild(&kept.top, &kept.waiting).is_err() {
        let _refused = notes.pop();
        return Err(NoMemory);
    }
    Ok(())
}

// Whether all guards hold over these registers.
#[tactic(auto, unfolding(cj_draft::specs::Effects::guards_hold))]
fn guards_hold(guards: &[Guard], regs: &[i64]) -> bool
    requires { All (IsGuardWithin (length regs.now)) guards.now }
    ensures { result ≡ guards_hold regs.now guards.now }
{
    for guard in guards {
        if !guard_holds(guard, regs) {
            return false;
        }
    }
    true
}

#[tactic(auto, unfolding(cj_draft::specs::Effects::guard_holds))]
fn guard_holds(guard: &Guard, regs: &[i64]) -> bool
    requires { IsGuardWithin (length regs.now) guard.now }
    ensures { result ≡ guard_holds regs.now guard.now }
{
    match guard {
        Guard::Is { reg, value } => regs[reg.0 as usize] == *value,
        Guard::Never => false,
    }
}
