//! Points: the base frames that a place of a rewritten body stands for.

use cj_ir::{Duplicate, FunId, Label, NoMemory, Operands, Reg, Sequence};

/// A base frame over a version's registers: a base function, a label of it, and an operand for each of its
/// registers. `dest` is the destination of the call that the frame waits for, and 0 in the first frame of a point.
#[derive(Debug, Drop)]
pub struct PointFrame {
    pub function: FunId,
    pub label: Label,
    pub dest: Reg,
    pub map: Operands,
}

pub type Frames = Sequence<PointFrame>;

/// One to four frames, the top one first and then those that wait, innermost first.
#[derive(Debug, Drop)]
pub struct Point {
    pub frames: Frames,
}

impl Duplicate for PointFrame {
    fn copy(&self) -> Result<PointFrame, NoMemory> {
        let map = self.map.copy()?;
        Ok(PointFrame {
            function: self.function,
            label: self.label,
            dest: self.dest,
            map,
        })
    }
}

impl Duplicate for Point {
    fn copy(&self) -> Result<Point, NoMemory> {
        let frames = self.frames.copy()?;
        Ok(Point { frames })
    }
}
