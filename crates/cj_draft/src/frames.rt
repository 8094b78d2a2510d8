//! The base frames of a point.

ghost use Rattle.std.specs.Prelude.{◌≡◌, ◌<◌, length, All, IfOk};
ghost use Rattle.cj_ir.specs.Values.{IsOperandWithin};
ghost use Rattle.cj_ir.specs.declared.language.Program.{Program};
ghost use Rattle.cj_draft.specs.Points.{top_of, waiting_of, frames_of, IsPointWithin, made_stack};

use crate::points::{Point, PointFrame};
use cj_base::{Frame, Waiting, Waitings};
use cj_ir::{NoMemory, operand_values};

#[tactic(auto, unfolding(crate::specs::Points::top_of, crate::specs::Points::waiting_of, crate::specs::Points::frame_regs))]
impl PointFrame {
    fn top(&self, regs: &[i64]) -> Result<Frame, NoMemory>
        requires { All (IsOperandWithin (length regs.now)) self.now.map }
        ensures { IfOk result (λ frame. (P : Program) → frame ≡ top_of P regs.now self.now) }
    {
        let regs = operand_values(self.map.allocator(), self.map.items(), regs)?;
        Ok(Frame {
            function: self.function,
            label: self.label,
            regs,
        })
    }

    fn waiting(&self, regs: &[i64]) -> Result<Waiting, NoMemory>
        requires { All (IsOperandWithin (length regs.now)) self.now.map }
        ensures { IfOk result (λ frame. (P : Program) → frame ≡ waiting_of P regs.now self.now) }
    {
        let regs = operand_values(self.map.allocator(), self.map.items(), regs)?;
        Ok(Waiting {
            function: self.function,
            label: self.label,
            regs,
            dest: self.dest,
        })
    }
}

impl Point {
    /// The base frames that the point stands for over a version's registers: the top one, and those that wait, innermost
    /// first. The registers of each are the operands of its map, read in `regs`. The maps' registers have to be below
    /// `regs.len()`, and there has to be a frame.
    pub fn frames(&self, regs: &[i64]) -> Result<(Frame, Waitings), NoMemory>
        requires some { 0 < length self.now.frames }
        requires within { IsPointWithin (length regs.now) self.now }
        ensures { IfOk result (λ frames. (P : Program) → made_stack frames ≡ frames_of P self.now regs.now) }
    {
        let frames = self.frames.items();
        let top = frames[0].top(regs)?;
        let mut waiting = Waitings::new(self.frames.allocator());
        for frame in &frames[1..] {
            waiting.push(frame.waiting(regs)?)?;
        }
        Ok((top, waiting))
    }
}
