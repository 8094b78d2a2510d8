//! The canonical text of what bytes are.

ghost use Rattle.std.specs.Prelude.{◌≡◌, IfOk, IfErr, MatchResult};
ghost use Rattle.cj_tokens.specs.declared.refusal.ParseError.TheVariants.{NoMemory};
ghost use Rattle.cj_text.specs.Answers.{IsParseError};
ghost use Rattle.cj_text.specs.Canonical.{IsCanonical, IsCanonicalOf};

use crate::laws::printed_is_read;
use crate::{ParseError, parse, print_input};
use std::alloc::Global;

/// The canonical text of the input that the bytes are. A canonical text stays as it is.
///
/// Refused: where the bytes are no input, with their first offence.
pub fn canonical_text(alloc: Global, bytes: &[u8]) -> Result<Vec<u8>, ParseError>
    ensures canonical { IfOk result (λ text. IsCanonicalOf bytes.now text.items) }
    ensures stays { IsCanonical bytes.now → MatchResult result (λ text. text.items ≡ bytes.now) (λ error. error ≡ NoMemory) }
    ensures refused { IfErr result (IsParseError bytes.now) }
{
    let input = match parse(alloc, bytes) {
        Ok(input) => input,
        Err(error) => return Err(error),
    };
    printed_is_read(&input);
    match print_input(alloc, &input) {
        Ok(text) => Ok(text),
        Err(_no_memory) => Err(ParseError::NoMemory),
    }
}
