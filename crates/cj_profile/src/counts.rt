//! Counting what running code does.

ghost use Rattle.std.specs.Prelude.{◌≡◌, ◌+◌, ◌%◌, ◌^◌, ◌<◌, [], ◌∷◌, length, ℕ};
ghost use Rattle.cj_ir.specs.Program.{param_count, label_count};
ghost use Rattle.cj_profile.specs.declared.layout.Word.TheVariants.{Calls, Failures, Way};
ghost use Rattle.cj_profile.specs.Reads.{add_one, ParamPart, EnteredPart};
ghost use Rattle.cj_profile.specs.Seats.{program_of, Belongs, IsSame, Adds, AddsPart};

use crate::layout::Word;
use crate::profile::{Profile, ProfileSeat};
use cj_ir::{Edge, FunId, Label};

impl Profile {
    /// One more entry of a function with these arguments, one for each parameter. The answer is the new count of calls.
    /// An argument that equals the last one of its parameter is counted; another becomes the last one, with the count 1.
    pub fn entered(&self, seat: &mut ProfileSeat, f: FunId, args: &[i64]) -> u64
        requires own { Belongs self.now seat.old }
        requires function { f.0 < length (program_of self.now).functions }
        requires arguments { length args.now ≡ param_count (program_of self.now) f }
        ensures own { Belongs self.now seat.new }
        ensures same { IsSame seat.old seat.new }
        ensures reads { (found : ℕ) × (found < 2 ^ 64) × (result ≡ (found + 1) % 2 ^ 64) × AddsPart (EnteredPart f args.now found) seat.old seat.new }
    {
        let found = self.add_one(seat, Word::Calls(f));
        for (param, &arg) in args.iter().enumerate() {
            self.agree(seat, f, param as u32, arg);
        }
        found.wrapping_add(1)
    }

    /// One more argument of a parameter.
    fn agree(&self, seat: &mut ProfileSeat, f: FunId, param: u32, arg: i64)
        requires own { Belongs self.now seat.old }
        requires param { param < param_count (program_of self.now) f }
        ensures own { Belongs self.now seat.new }
        ensures same { IsSame seat.old seat.new }
        ensures reads { AddsPart (ParamPart f param arg) seat.old seat.new }
    {
        let function = f;
        let word = arg.cast_unsigned();
        let last = self.load(seat, Word::Last { function, param });
        if last == word {
            self.add_one(seat, Word::Agreed { function, param });
        } else {
            self.store(seat, Word::Last { function, param }, word);
            self.store(seat, Word::Agreed { function, param }, 1);
        }
    }

    /// One more time that the `cond` at a label of a base body took an edge.
    pub fn branched(&self, seat: &mut ProfileSeat, f: FunId, label: Label, edge: Edge)
        requires own { Belongs self.now seat.old }
        requires label { label.0 < label_count (program_of self.now) f }
        ensures own { Belongs self.now seat.new }
        ensures same { IsSame seat.old seat.new }
        ensures reads { (found : ℕ) × (found < 2 ^ 64) × Adds (add_one (Way f label edge) found ∷ []) seat.old seat.new }
    {
        self.add_one(
            seat,
            Word::Way {
                function: f,
                label,
                edge,
            },
        );
    }

    /// One more failed Assume of a function's version. The answer is the new count.
    pub fn failed(&self, seat: &mut ProfileSeat, f: FunId) -> u64
        requires own { Belongs self.now seat.old }
        requires function { f.0 < length (program_of self.now).functions }
        ensures own { Belongs self.now seat.new }
        ensures same { IsSame seat.old seat.new }
        ensures reads { (found : ℕ) × (found < 2 ^ 64) × (result ≡ (found + 1) % 2 ^ 64) × Adds (add_one (Failures f) found ∷ []) seat.old seat.new }
    {
        let found = self.add_one(seat, Word::Failures(f));
        found.wrapping_add(1)
    }
}
