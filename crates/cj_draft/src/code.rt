//! Codes: the rewritten body of a function, as a list of places.

use crate::facts::Facts;
use crate::instructions::VInstr;
use crate::points::Point;
use cj_ir::{Duplicate, FunId, Label, NoMemory, Sequence};

/// The base run had the point's frames that many turns ago, and its turns since then were nops and conds.
#[derive(Debug, Drop)]
pub struct Back {
    pub turns: u32,
    pub point: Point,
}

pub type Backs = Sequence<Back>;

/// An instruction with the base frames that its label stands for, what is known of the registers there, and the frames
/// that the base run had a few turns ago.
#[derive(Debug, Drop)]
pub struct Place {
    pub instr: VInstr,
    pub point: Point,
    pub facts: Facts,
    pub backs: Backs,
}

pub type Places = Sequence<Place>;

/// A rewritten body of a function, over as many registers as `regs` says. A label is a place of the list, from 0.
#[derive(Debug, Drop)]
pub struct Code {
    pub function: FunId,
    pub regs: u32,
    pub entry: Label,
    pub places: Places,
}

impl Duplicate for Back {
    fn copy(&self) -> Result<Back, NoMemory> {
        let point = self.point.copy()?;
        Ok(Back {
            turns: self.turns,
            point,
        })
    }
}
