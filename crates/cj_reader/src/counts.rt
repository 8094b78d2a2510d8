//! How long lists are, counted ahead of their reading.

ghost use Rattle.std.specs.Prelude.{◌≡◌, ◌+◌, Ok, cond};
ghost use Rattle.cj_tokens.specs.Seen.{seen};
ghost use Rattle.cj_tokens.specs.Left.{left};
ghost use Rattle.cj_tokens.specs.Lexemes.{is_terminal};
ghost use Rattle.cj_tokens.specs.Passing.{front};
ghost use Rattle.cj_tokens.specs.declared.terminal.Terminal.TheVariants.{Comma};
ghost use Rattle.cj_grammar.specs.Readers.{Found};
ghost use Rattle.cj_reader.specs.Prescans.{ends_list, count_at};

use crate::memory::one_more;
use cj_tokens::{Lexeme, ParseError, Terminal, Tokens};

// Whether a list ends there.
fn ends_list(tokens: &Tokens<'_>) -> bool
    ensures { result ≡ ends_list (front (left tokens.now)) }
{
    matches!(
        tokens.peek(),
        Terminal::CloseParen | Terminal::Semicolon | Terminal::End
    )
}

// A comma is no item.
fn with_token(count: u32, token: Lexeme<'_>) -> Result<u32, ParseError>
    ensures { Found result (Ok (cond (is_terminal Comma (seen token.entry)) count (count + 1))) }
{
    if token.terminal == Terminal::Comma {
        Ok(count)
    } else {
        one_more(count)
    }
}

/// How many items stand before the end of a list.
pub fn count_items(mut tokens: Tokens<'_>) -> Result<u32, ParseError>
    ensures { Found result (Ok (count_at (left tokens.entry))) }
{
    let mut count = 0;
    'more: while !ends_list(&tokens) {
        let token = tokens.take();
        match with_token(count, token) {
            Ok(next) => count = next,
            Err(error) => return Err(error),
        }
    }
    Ok(count)
}
