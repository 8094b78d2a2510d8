//! Points, read from their words.

ghost use Rattle.std.specs.Prelude.{◌≡◌};
ghost use Rattle.cj_codec.specs.Reading.{frame_at, point_at, has_plain_top};
ghost use Rattle.cj_codec.specs.Answers.{left, Gives};

use crate::items::{Item, read_few};
use crate::reader::{Limits, ReadError, WordReader};
use cj_draft::limits::MAX_FRAMES;
use cj_draft::{Point, PointFrame};
use cj_ir::limits::MAX_REGS;
use std::alloc::Global;

impl Item for PointFrame {
    ghost reading = { frame_at };

    #[tactic(auto, unfolding(crate::specs::Reading::frame_at))]
    fn read(
        alloc: Global,
        words: &mut WordReader<'_>,
        limits: Limits,
    ) -> Result<PointFrame, ReadError> {
        let function = words.function()?;
        let label = words.base_label()?;
        let dest = words.base_reg()?;
        let map = read_few(alloc, words, limits, MAX_REGS as u32)?;
        Ok(PointFrame {
            function,
            label,
            dest,
            map,
        })
    }
}

// Whether there is a first frame, with destination 0.
fn has_plain_top(frames: &[PointFrame]) -> bool
    ensures { result ≡ has_plain_top frames.now }
{
    match frames.first() {
        None => false,
        Some(first) => first.dest.0 == 0,
    }
}

/// A point.
#[tactic(auto, unfolding(crate::specs::Reading::point_at))]
pub fn read_point(
    alloc: Global,
    words: &mut WordReader<'_>,
    limits: Limits,
) -> Result<Point, ReadError>
    ensures { Gives result (left words.new) (point_at limits (left words.old)) }
{
    let frames = read_few(alloc, words, limits, MAX_FRAMES)?;
    if has_plain_top(frames.items()) {
        Ok(Point { frames })
    } else {
        Err(ReadError::NoSpelling)
    }
}
