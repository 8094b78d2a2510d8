//! Offences of tokens.

ghost use Rattle.cj_tokens.specs.Seen.{seen};
ghost use Rattle.cj_grammar.specs.Readers.{Found};
ghost use Rattle.cj_reader.specs.Reading.{refuse_if};

use cj_grammar::refused;
use cj_tokens::{Kind, Lexeme, ParseError};

/// Refuses a token where the test holds.
pub fn refuse_if(test: bool, token: Lexeme<'_>, kind: Kind) -> Result<(), ParseError>
    ensures { Found result (refuse_if test (seen token.entry) kind) }
{
    if test {
        Err(refused(token, kind))
    } else {
        Ok(())
    }
}
