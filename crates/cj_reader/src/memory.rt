//! Want of memory among the errors of a reader.

ghost use Rattle.std.specs.Prelude.{◌≡◌, ◌+◌, Ok, Err, IfOk, IfErr};
ghost use Rattle.cj_grammar.specs.Readers.{Found};
ghost use Rattle.cj_tokens.specs.declared.refusal.ParseError.TheVariants as parse;

use cj_ir::NoMemory;
use cj_tokens::ParseError;

/// Want of memory, as a reader answers it.
pub fn remembered<T: Drop>(outcome: Result<T, NoMemory>) -> Result<T, ParseError>
    ensures ok { IfOk outcome (λ value. result ≡ Ok value) }
    ensures err { IfErr outcome (λ error. result ≡ Err parse.NoMemory) }
{
    match outcome {
        Ok(value) => Ok(value),
        Err(NoMemory) => Err(ParseError::NoMemory),
    }
}

/// One more. What passes 32 bits takes more memory than there is.
pub fn one_more(count: u32) -> Result<u32, ParseError>
    ensures { Found result (Ok (count + 1)) }
{
    match count.checked_add(1) {
        Some(next) => Ok(next),
        None => Err(ParseError::NoMemory),
    }
}
