//! Names and texts from their tokens.

ghost use Rattle.std.specs.Prelude.{◌≡◌, ◌≤◌, ◌||◌, nat_le, length, true};
ghost use Rattle.std.specs.List.{list_all};
ghost use Rattle.cj_ir.specs.Texts.{is_text_byte};
ghost use Rattle.cj_tokens.specs.Words.{is_free_word};
ghost use Rattle.cj_tokens.specs.Seen.{seen};
ghost use Rattle.cj_tokens.specs.declared.terminal.Terminal.TheVariants as terminal;
ghost use Rattle.cj_grammar.specs.Readers.{Found};
ghost use Rattle.cj_reader.specs.Operands.{is_long};
ghost use Rattle.cj_reader.specs.Reading.{word_at, text_at};

use crate::memory::remembered;
use cj_grammar::refused;
use cj_ir::limits::{MAX_NAME, MAX_TEXT};
use cj_ir::{Name, Text};
use cj_tokens::{Kind, Lexeme, ParseError, Terminal};
use std::alloc::Global;

/// Whether a NAME has too many bytes, or stands behind as many as there may be.
pub fn is_too_many(token: Lexeme<'_>, limit: usize, count: usize) -> bool
    ensures { result ≡ (is_long (seen token.entry) || nat_le limit count) }
{
    let long = token.text.len() > MAX_NAME;
    long || limit <= count
}

/// The name that a token of not too many bytes is.
#[tactic(auto, unfolding(crate::specs::Reading::word_at))]
pub fn word(alloc: Global, token: Lexeme<'_>) -> Result<Name, ParseError>
    requires free { token.terminal ≡ terminal.Name → is_free_word token.text.now ≡ true }
    requires short { length token.text.now ≤ MAX_NAME }
    ensures { Found result (word_at (seen token.entry)) }
{
    if token.terminal != Terminal::Name {
        return Err(refused(token, Kind::Syntax));
    }
    match remembered(Name::of(alloc, token.text))? {
        Some(name) => Ok(name),
        None => unreachable!(),
    }
}

/// The text that a token of not too many bytes is.
#[tactic(auto, unfolding(crate::specs::Reading::text_at))]
pub fn text(alloc: Global, token: Lexeme<'_>) -> Result<Text, ParseError>
    requires printable { token.terminal ≡ terminal.Text → list_all is_text_byte token.text.now ≡ true }
    requires short { length token.text.now ≤ MAX_TEXT }
    ensures { Found result (text_at (seen token.entry)) }
{
    if token.terminal != Terminal::Text {
        return Err(refused(token, Kind::Syntax));
    }
    match remembered(Text::of(alloc, token.text))? {
        Some(text) => Ok(text),
        None => unreachable!(),
    }
}
