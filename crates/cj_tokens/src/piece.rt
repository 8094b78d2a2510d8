//! The tokens as they are given one by one.

ghost use Rattle.std.specs.Prelude.{◌≡◌};
ghost use Rattle.cj_tokens.specs.Pieces.{piece_of, given_as, is_passed};
ghost use Rattle.cj_tokens.specs.Seen.{placed};

use crate::lexeme::Scanned;
use crate::refusal::{Kind, Refused};
use crate::terminal::Terminal;

/// What a token is: a name, a keyword, a number with its value, a text with its quotes, a mark, or the end.
#[derive(Clone, Copy, Debug, PartialEq, Eq)]
pub enum Piece {
    Name,
    Keyword,
    Number(i64),
    Text,
    Mark,
    End,
}

/// A token: its line, from 1 and no higher than the greatest u32; the place of its first byte and that behind its
/// last one, from 0; and what it is. For the end both places are the number of all bytes.
#[derive(Clone, Copy, Debug, PartialEq, Eq)]
pub struct Token {
    pub line: u32,
    pub start: usize,
    pub end: usize,
    pub what: Piece,
}

/// The token, or the offence that it is.
pub(crate) fn given(scanned: &Scanned<'_>) -> Result<Token, Refused>
    ensures { result ≡ given_as scanned.now.lexeme.terminal (placed scanned.now) }
{
    let line = scanned.lexeme.line;
    match scanned.lexeme.terminal {
        Terminal::BadCharacter => Err(Refused {
            line,
            kind: Kind::Character,
        }),
        Terminal::BadNumber => Err(Refused {
            line,
            kind: Kind::Number,
        }),
        terminal => Ok(Token {
            line,
            start: scanned.start,
            end: scanned.stop,
            what: piece_of(terminal, scanned.lexeme.number),
        }),
    }
}

/// Whether the next token is asked for behind this one, which is neither the end nor an offence then.
pub(crate) fn is_passed(terminal: Terminal) -> bool
    ensures { result ≡ is_passed terminal }
{
    !matches!(
        terminal,
        Terminal::End | Terminal::BadCharacter | Terminal::BadNumber
    )
}

fn piece_of(terminal: Terminal, number: i64) -> Piece
    ensures { result ≡ piece_of terminal number }
{
    match terminal {
        Terminal::End => Piece::End,
        Terminal::Name => Piece::Name,
        Terminal::Number => Piece::Number(number),
        Terminal::Text => Piece::Text,
        Terminal::OpenParen
        | Terminal::CloseParen
        | Terminal::OpenBrace
        | Terminal::CloseBrace
        | Terminal::OpenBracket
        | Terminal::CloseBracket
        | Terminal::Comma
        | Terminal::Semicolon
        | Terminal::Colon
        | Terminal::Equals
        | Terminal::Plus
        | Terminal::Minus
        | Terminal::Star
        | Terminal::Slash
        | Terminal::Percent
        | Terminal::Less
        | Terminal::Arrow => Piece::Mark,
        _ => Piece::Keyword,
    }
}
