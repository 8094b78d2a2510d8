//! The text that a source gives.

ghost use Rattle.std.specs.Prelude.{◌≡◌, Ok, OnOk, IfOk, IfErr};
ghost use Rattle.cj_script.specs.Fitting.{FitsScript};
ghost use Rattle.cj_events.specs.Playable.{CanPlay};
ghost use Rattle.cj_events.specs.Replays.{ReadsReplay};
ghost use Rattle.cj_text.specs.Reads.{Reads};
ghost use Rattle.cj_driver.specs.Outside.{AreWhole, WasRead};
ghost use Rattle.cj_driver.specs.Steps.{BytesStop, StopStands};

use cj_io::{ReadError, Source, read_all};
use cj_ir::{Checked, Input};
use cj_text::parse;
use cj_tokens::{ParseError, Refused};
use cj_world::{Events, parse_replay};
use std::alloc::Global;
use thiserror::Error;

/// The longest text, in bytes.
const LONGEST: u32 = 4_194_304;

/// Why no text was read.
#[derive(Clone, Copy, Debug, PartialEq, Eq, Error)]
pub enum Stop {
    /// The bytes are no text of the command, and this is their first offence.
    #[error("the text is refused")]
    Refused(Refused),
    /// The source failed, and at most `LONGEST` bytes were taken.
    #[error("the source failed")]
    ReadFault,
    /// The source gave more than `LONGEST` bytes.
    #[error("there are too many bytes")]
    TooLong,
    #[error("out of memory")]
    NoMemory,
}

/// All bytes of the source, up to its end.
fn read_bytes<S: Source>(alloc: Global, source: &mut S) -> Result<Vec<u8>, Stop>
    ensures read { IfOk result (λ bytes. AreWhole (S.left source.old) (S.left source.new) bytes.items) }
    ensures calm { OnOk result (S.faults source.new ≡ S.faults source.old) }
    ensures stop { IfErr result (λ stop. BytesStop (S.left source.old) (S.left source.new) (S.faults source.old) (S.faults source.new) stop) }
{
    match read_all(alloc, source, LONGEST) {
        Ok(bytes) => Ok(bytes),
        Err(ReadError::ReadFault) => Err(Stop::ReadFault),
        Err(ReadError::TooLong { .. }) => Err(Stop::TooLong),
        Err(ReadError::NoMemory) => Err(Stop::NoMemory),
    }
}

/// The input that the source's bytes are.
pub fn read_input<S: Source>(alloc: Global, source: &mut S) -> Result<Input, Stop>
    ensures read { IfOk result (λ input. WasRead Reads (S.left source.old) (S.left source.new) (Ok input)) }
    ensures fits { IfOk result (λ input. FitsScript input.checked input.script) }
    ensures calm { OnOk result (S.faults source.new ≡ S.faults source.old) }
    ensures stop { IfErr result (λ stop. StopStands Reads (S.left source.old) (S.left source.new) (S.faults source.old) (S.faults source.new) stop) }
{
    let bytes = match read_bytes(alloc, source) {
        Ok(bytes) => bytes,
        Err(stop) => return Err(stop),
    };
    match parse(alloc, &bytes) {
        Ok(input) => Ok(input),
        Err(ParseError::Refused(refused)) => Err(Stop::Refused(refused)),
        Err(ParseError::NoMemory) => Err(Stop::NoMemory),
    }
}

/// The replay that the source's bytes are.
pub fn read_replay<S: Source>(alloc: Global, source: &mut S) -> Result<(Checked, Events), Stop>
    ensures read { IfOk result (λ replay. WasRead ReadsReplay (S.left source.old) (S.left source.new) (Ok replay)) }
    ensures playable { IfOk result (λ replay. CanPlay replay.0 replay.1) }
    ensures calm { OnOk result (S.faults source.new ≡ S.faults source.old) }
    ensures stop { IfErr result (λ stop. StopStands ReadsReplay (S.left source.old) (S.left source.new) (S.faults source.old) (S.faults source.new) stop) }
{
    let bytes = match read_bytes(alloc, source) {
        Ok(bytes) => bytes,
        Err(stop) => return Err(stop),
    };
    match parse_replay(alloc, &bytes) {
        Ok(replay) => Ok(replay),
        Err(ParseError::Refused(refused)) => Err(Stop::Refused(refused)),
        Err(ParseError::NoMemory) => Err(Stop::NoMemory),
    }
}
