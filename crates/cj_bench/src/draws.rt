//! Draws of numbers.

ghost use Rattle.std.specs.Prelude.{◌≡◌, ◌<◌, ◌%◌, ◌+◌};
ghost use Rattle.cj_bench.specs.Generated.{next_state, drawn};

/// What the next draw is made from.
#[derive(Debug, Drop)]
pub(crate) struct Draws {
    pub(crate) state: u32,
}

impl Draws {
    /// A number below a count: the remainder of what is drawn.
    #[tactic(auto, unfolding(crate::specs::Generated::drawn))]
    pub(crate) fn below(&mut self, count: u32) -> u32
        requires { 0 < count }
        ensures number { result ≡ drawn self.old.state % count }
        ensures next { self.new.state ≡ next_state self.old.state }
        ensures below { result < count }
    {
        let state = next_state(self.state);
        self.state = state;
        (state / 65536) % count
    }
}

#[tactic(auto, unfolding(crate::specs::Generated::next_state))]
fn next_state(state: u32) -> u32
    ensures { result ≡ next_state state }
{
    ((u64::from(state) * 1103515245 + 12345) % 2147483648) as u32
}
