//! The words of codes.

ghost use Rattle.std.specs.Prelude.{◌≡◌, ◌-◌, ◌^◌, ◌<◌, ◌++◌, ◌∷◌, length, OnOk, IfOk, IfErr};
ghost use Rattle.cj_spelling.specs.Counting.{capped};
ghost use Rattle.cj_spelling.specs.Spelling.{spelling, body_words};
ghost use Rattle.cj_spelling.specs.Ranges.{IsInRange};
ghost use Rattle.cj_spelling.specs.Values.{HasValues};
ghost use Rattle.cj_spelling.specs.Spells.{Spells, EncodeFails};

use crate::spelled::{Spelled, Words};
use cj_draft::Code;
use cj_ir::NoMemory;
use std::alloc::Global;
use thiserror::Error;

/// The most words of a code.
pub const MAX_WORDS: u64 = 65536;

/// Why a code has no words.
#[derive(Clone, Copy, Debug, PartialEq, Eq, Error)]
pub enum EncodeError {
    /// The spelling has so many words, more than `MAX_WORDS`. (Where they are more than 2^64 - 1, it is that number.)
    #[error("the code has {len} words")]
    TooLarge { len: u64 },
    #[error("there was no memory")]
    NoMemory,
}

/// How many words the spelling of a code has, which takes no memory to count. Where they are more than 2^64 - 1, it is that
/// number.
#[tactic(auto, using(crate::proofs::Capped::capped_more))]
pub fn word_count(code: &Code) -> u64
    ensures count { result ≡ capped (length (spelling code.now)) }
    ensures exact { result < 2 ^ 64 - 1 → result ≡ length (spelling code.now) }
{
    code.places.count(5)
}

// Appends the words behind the length.
fn write_body(code: &Code, out: &mut Words) -> Result<(), NoMemory>
    ensures words { OnOk result (out.new ≡ out.old ++ body_words code.now) }
    ensures values { OnOk result (HasValues code.now) }
{
    out.push(1)?;
    code.function.write(out)?;
    out.push(code.regs as u64)?;
    code.entry.write(out)?;
    code.places.write(out)
}

// The length and the words behind it.
fn write_words(alloc: Global, code: &Code, len: u64) -> Result<Words, NoMemory>
    ensures words { IfOk result (λ words. words ≡ len ∷ body_words code.now) }
    ensures values { OnOk result (HasValues code.now) }
{
    let mut words = Words::new(alloc);
    words.push(len)?;
    write_body(code, &mut words)?;
    Ok(words)
}

/// The words of a code that is in range. An anchor is not.
///
/// `TooLarge`: exactly where they are more than `MAX_WORDS`, which takes no memory.
pub fn encode(alloc: Global, code: &Code) -> Result<Words, EncodeError>
    requires in_range { IsInRange code.now }
    ensures words { IfOk result (λ words. Spells words code.now) }
    ensures too_large { IfErr result (λ error. EncodeFails error code.now) }
{
    let len = word_count(code);
    if len > MAX_WORDS {
        return Err(EncodeError::TooLarge { len });
    }
    match write_words(alloc, code, len) {
        Ok(words) => Ok(words),
        Err(NoMemory) => Err(EncodeError::NoMemory),
    }
}
