//! The words of points.

ghost use Rattle.cj_spelling.specs.Spelling.{frame_words, point_words};
ghost use Rattle.cj_spelling.specs.Values.{HasFrameValues, HasPointValues};

use crate::spelled::{Spelled, Words};
use cj_draft::{Point, PointFrame};
use cj_ir::NoMemory;

#[tactic(auto, using(crate::proofs::Capped::capped_more))]
impl Spelled for PointFrame {
    ghost words_of = { frame_words };

    ghost has_values = { HasFrameValues };

    fn count(&self, so_far: u64) -> u64 {
        let so_far = self.function.count(so_far);
        let so_far = self.label.count(so_far);
        let so_far = self.dest.count(so_far);
        self.map.count(so_far)
    }

    fn write(&self, out: &mut Words) -> Result<(), NoMemory> {
        self.function.write(out)?;
        self.label.write(out)?;
        self.dest.write(out)?;
        self.map.write(out)
    }
}

impl Spelled for Point {
    ghost words_of = { point_words };

    ghost has_values = { HasPointValues };

    fn count(&self, so_far: u64) -> u64 {
        self.frames.count(so_far)
    }

    fn write(&self, out: &mut Words) -> Result<(), NoMemory> {
        self.frames.write(out)
    }
}
