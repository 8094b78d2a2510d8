//! What the words of a function say.

ghost use Rattle.std.specs.Prelude.{◌≡◌, ◌<◌, ◌≤◌, [], ◌∷◌, length, All, IfOk};
ghost use Rattle.cj_ir.specs.Program.{param_count, label_count};
ghost use Rattle.cj_profile.specs.declared.layout.Word.TheVariants.{Way};
ghost use Rattle.cj_profile.specs.Reads.{load, Keeps};

use crate::layout::Word;
use crate::profile::{Profile, ProfileSeat};
use cj_ir::{Edge, FunId, Label, NoMemory, Sequence};
use std::alloc::Global;

/// The last argument of a parameter, and how many agreed with it.
#[derive(Clone, Copy, Debug, PartialEq, Eq)]
pub struct ParamNote {
    pub last: i64,
    pub agreed: u64,
}

/// How often a label's `cond` took each of its edges.
#[derive(Clone, Copy, Debug, PartialEq, Eq)]
pub struct EdgeNote {
    pub then_count: u64,
    pub else_count: u64,
}

pub type ParamNotes = Sequence<ParamNote>;

pub type EdgeNotes = Sequence<EdgeNote>;

/// How often a function was entered and its Assumes failed, with a note for each of its parameters and labels.
#[derive(Debug, Drop)]
pub struct Snapshot {
    pub calls: u64,
    pub fails: u64,
    pub params: ParamNotes,
    pub edges: EdgeNotes,
}

impl Profile {
    ghost use Rattle.cj_profile.specs.Seats.{program_of, Belongs, IsSame, Adds, AddsPart};
    ghost use Rattle.cj_profile.specs.Snapshots.{param_loads, edge_loads, each_loads, snapshot_loads, FitsFunction};

    /// What the words of a function say, each loaded once, in the order of their numbers. The fields are the values found.
    /// Where there is no memory some of these words were loaded, and nothing else was done.
    pub fn snapshot(
        &self,
        alloc: Global,
        seat: &mut ProfileSeat,
        f: FunId,
    ) -> Result<Snapshot, NoMemory>
        requires own { Belongs self.now seat.old }
        requires function { f.0 < length (program_of self.now).functions }
        ensures own { Belongs self.now seat.new }
        ensures same { IsSame seat.old seat.new }
        ensures fits { IfOk result (FitsFunction (program_of self.now) f) }
        ensures reads { IfOk result (λ snapshot. Adds (snapshot_loads f snapshot) seat.old seat.new) }
        ensures loads { AddsPart (All Keeps) seat.old seat.new }
    {
        let shape = self.shapes.items()[f.0 as usize];
        let calls = self.load(seat, Word::Calls(f));
        let fails = self.load(seat, Word::Failures(f));
        let params = self.param_notes(alloc, seat, f, shape.params)?;
        let edges = self.edge_notes(alloc, seat, f, shape.labels)?;
        Ok(Snapshot {
            calls,
            fails,
            params,
            edges,
        })
    }

    fn param_notes(
        &self,
        alloc: Global,
        seat: &mut ProfileSeat,
        f: FunId,
        count: u32,
    ) -> Result<ParamNotes, NoMemory>
        requires own { Belongs self.now seat.old }
        requires count { count ≤ param_count (program_of self.now) f }
        ensures own { Belongs self.now seat.new }
        ensures same { IsSame seat.old seat.new }
        ensures count { IfOk result (λ notes. length notes ≡ count) }
        ensures reads { IfOk result (λ notes. Adds (each_loads (param_loads f) 0 notes) seat.old seat.new) }
        ensures loads { AddsPart (All Keeps) seat.old seat.new }
    {
        let mut notes = ParamNotes::new(alloc);
        for param in 0..count {
            let note = self.param_note(seat, f, param);
            notes.push(note)?;
        }
        Ok(notes)
    }

    fn param_note(&self, seat: &mut ProfileSeat, f: FunId, param: u32) -> ParamNote
        requires own { Belongs self.now seat.old }
        requires param { param < param_count (program_of self.now) f }
        ensures own { Belongs self.now seat.new }
        ensures same { IsSame seat.old seat.new }
        ensures reads { Adds (param_loads f param result) seat.old seat.new }
    {
        let function = f;
        let last = self.load(seat, Word::Last { function, param });
        let agreed = self.load(seat, Word::Agreed { function, param });
        ParamNote {
            last: last.cast_signed(),
            agreed,
        }
    }

    fn edge_notes(
        &self,
        alloc: Global,
        seat: &mut ProfileSeat,
        f: FunId,
        count: u32,
    ) -> Result<EdgeNotes, NoMemory>
        requires own { Belongs self.now seat.old }
        requires count { count ≤ label_count (program_of self.now) f }
        ensures own { Belongs self.now seat.new }
        ensures same { IsSame seat.old seat.new }
        ensures count { IfOk result (λ notes. length notes ≡ count) }
        ensures reads { IfOk result (λ notes. Adds (each_loads (edge_loads f) 0 notes) seat.old seat.new) }
        ensures loads { AddsPart (All Keeps) seat.old seat.new }
    {
        let mut notes = EdgeNotes::new(alloc);
        for label in 0..count {
            let note = self.edge_note(seat, f, Label(label));
            notes.push(note)?;
        }
        Ok(notes)
    }

    fn edge_note(&self, seat: &mut ProfileSeat, f: FunId, label: Label) -> EdgeNote
        requires own { Belongs self.now seat.old }
        requires label { label.0 < label_count (program_of self.now) f }
        ensures own { Belongs self.now seat.new }
        ensures same { IsSame seat.old seat.new }
        ensures reads { Adds (edge_loads f label.0 result) seat.old seat.new }
    {
        let then_count = self.edge_count(seat, f, label, Edge::Then);
        let else_count = self.edge_count(seat, f, label, Edge::Else);
        EdgeNote {
            then_count,
            else_count,
        }
    }

    fn edge_count(&self, seat: &mut ProfileSeat, f: FunId, label: Label, edge: Edge) -> u64
        requires own { Belongs self.now seat.old }
        requires label { label.0 < label_count (program_of self.now) f }
        ensures own { Belongs self.now seat.new }
        ensures same { IsSame seat.old seat.new }
        ensures reads { Adds (load (Way f label edge) result ∷ []) seat.old seat.new }
    {
        let word = Word::Way {
            function: f,
            label,
            edge,
        };
        self.load(seat, word)
    }
}
