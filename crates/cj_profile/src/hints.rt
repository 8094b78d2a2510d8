//! Hints: what the counts of a run would tell.

ghost use Rattle.std.specs.Prelude.{◌≡◌, ◌<◌, [], ◌∷◌};
ghost use Rattle.cj_ir.specs.Program.{param_count, label_count};
ghost use Rattle.cj_profile.specs.declared.layout.Word.TheVariants.{Last, Agreed, Way};
ghost use Rattle.cj_ir.specs.Values.{value_word};
ghost use Rattle.cj_profile.specs.Words.{other_edge};
ghost use Rattle.cj_profile.specs.Reads.{store};
ghost use Rattle.cj_profile.specs.Seats.{program_of, Belongs, IsSame, Adds};

use crate::layout::Word;
use crate::profile::{Profile, ProfileSeat};
use cj_ir::{Edge, FunId, Label};

impl Profile {
    /// As if the value had been the last argument of the parameter, which is counted from 0, and 4 had agreed.
    pub fn set_guess(&self, seat: &mut ProfileSeat, f: FunId, param: u32, value: i64)
        requires own { Belongs self.now seat.old }
        requires param { param < param_count (program_of self.now) f }
        ensures own { Belongs self.now seat.new }
        ensures same { IsSame seat.old seat.new }
        ensures reads { Adds (store (Last f param) (value_word value) ∷ store (Agreed f param) 4 ∷ []) seat.old seat.new }
    {
        let function = f;
        self.store(seat, Word::Last { function, param }, value.cast_unsigned());
        self.store(seat, Word::Agreed { function, param }, 4);
    }

    /// As if the `cond` at the label had taken the edge never, and the other edge 8 times.
    pub fn set_cold(&self, seat: &mut ProfileSeat, f: FunId, label: Label, edge: Edge)
        requires own { Belongs self.now seat.old }
        requires label { label.0 < label_count (program_of self.now) f }
        ensures own { Belongs self.now seat.new }
        ensures same { IsSame seat.old seat.new }
        ensures reads { Adds (store (Way f label edge) 0 ∷ store (Way f label (other_edge edge)) 8 ∷ []) seat.old seat.new }
    {
        let function = f;
        let cold = Word::Way {
            function,
            label,
            edge,
        };
        let other = Word::Way {
            function,
            label,
            edge: other_edge(edge),
        };
        self.store(seat, cold, 0);
        self.store(seat, other, 8);
    }
}

fn other_edge(edge: Edge) -> Edge
    ensures { result ≡ other_edge edge }
{
    match edge {
        Edge::Then => Edge::Else,
        Edge::Else => Edge::Then,
    }
}
