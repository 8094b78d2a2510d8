//! Codes, read from their words.

ghost use Rattle.std.specs.Prelude.{◌≡◌, ◌↔◌, Some, IfOk};
ghost use Rattle.cj_draft.specs.declared.code.Code.{Code};
ghost use Rattle.cj_spelling.specs.Spells.{Spells};
ghost use Rattle.cj_codec.specs.Reading.{places_at, code_at, body_at, decoded};
ghost use Rattle.cj_codec.specs.Answers.{left, Found, Gives};

use crate::items::read_each;
use crate::reader::{Limits, ReadError, WordReader};
use cj_draft::Code;
use cj_draft::limits::{MAX_CODE_LABELS, MAX_CODE_REGS};
use cj_ir::{FunId, Label, NoMemory};
use cj_spelling::MAX_WORDS;
use std::alloc::Global;

// The places of a code, and the code.
#[tactic(auto, unfolding(crate::specs::Reading::places_at))]
fn read_places(
    alloc: Global,
    words: &mut WordReader<'_>,
    function: FunId,
    regs: u32,
    entry: u64,
    labels: u32,
) -> Result<Code, ReadError>
    ensures { Gives result (left words.new) (places_at function regs entry labels (left words.old)) }
{
    if entry < labels as u64 {
        let places = read_each(alloc, words, Limits { regs, labels }, labels as u64)?;
        let entry = Label(entry as u32);
        Ok(Code {
            function,
            regs,
            entry,
            places,
        })
    } else {
        Err(ReadError::NoSpelling)
    }
}

// A code, behind the format's number.
#[tactic(auto, unfolding(crate::specs::Reading::code_at))]
fn read_code(alloc: Global, words: &mut WordReader<'_>) -> Result<Code, ReadError>
    ensures { Gives result (left words.new) (code_at (left words.old)) }
{
    let function = words.function()?;
    let regs = words.at_most(MAX_CODE_REGS)?;
    let entry = words.next()?;
    let labels = words.at_most(MAX_CODE_LABELS)?;
    read_places(alloc, words, function, regs, entry, labels)
}

/// The format's number and the code.
#[tactic(auto, unfolding(crate::specs::Reading::body_at))]
pub fn read_body(alloc: Global, words: &mut WordReader<'_>) -> Result<Code, ReadError>
    ensures { Gives result (left words.new) (body_at (left words.old)) }
{
    if words.next()? == 1 {
        read_code(alloc, words)
    } else {
        Err(ReadError::NoSpelling)
    }
}

// The code that all the words spell.
#[tactic(auto, unfolding(crate::specs::Reading::decoded))]
fn read_all(alloc: Global, words: &[u64]) -> Result<Code, ReadError>
    ensures { Found result (decoded words.now) }
{
    let len = words.len() as u64;
    if len > MAX_WORDS {
        return Err(ReadError::NoSpelling);
    }
    let mut reader = WordReader { rest: words };
    if reader.next()? != len {
        return Err(ReadError::NoSpelling);
    }
    let code = read_body(alloc, &mut reader)?;
    if reader.rest.is_empty() {
        Ok(code)
    } else {
        Err(ReadError::NoSpelling)
    }
}

#[tactic(auto, using(crate::proofs::CodeFormats::decoded_exactly))]
/// The code whose spelling the words are, all of them and at most 65,536, if there is one.
pub fn decode(alloc: Global, words: &[u64]) -> Result<Option<Code>, NoMemory>
    ensures exact { IfOk result (λ found. (code : Code) → (found ≡ Some code) ↔ Spells words.now code) }
{
    match read_all(alloc, words) {
        Ok(code) => Ok(Some(code)),
        Err(ReadError::NoSpelling) => Ok(None),
        Err(ReadError::NoMemory) => Err(NoMemory),
    }
}
