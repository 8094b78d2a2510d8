//! Offences of tokens, as readers answer them.

ghost use Rattle.std.specs.Prelude.{◌≡◌};
ghost use Rattle.cj_tokens.specs.Seen.{seen};
ghost use Rattle.cj_tokens.specs.declared.refusal.ParseError.TheVariants as parse;
ghost use Rattle.cj_grammar.specs.Reading.{offence};

use cj_tokens::{Kind, Lexeme, ParseError, Refused};

/// The offence of that kind which a token carries: in its line.
pub fn refused(token: Lexeme<'_>, kind: Kind) -> ParseError
    ensures { result ≡ parse.Refused (offence (seen token.entry) kind) }
{
    ParseError::Refused(Refused {
        line: token.line,
        kind,
    })
}
