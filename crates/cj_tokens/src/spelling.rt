//! What a token is, told by its bytes.

ghost use Rattle.std.specs.Prelude.{◌≡◌, [], ◌∷◌, length, ◌==◌, min, cond, Some, None, nat_le, neg_ℤ, pos, slice_get};
ghost use Rattle.cj_tokens.specs.Spellings.{begins_number, word_terminal, mark_terminal, terminal_of, lexeme_of, text_of, number_value, fits_i64, value, worth, keyword_terminals, mark_table};
ghost use Rattle.cj_tokens.specs.Seen.{seen};
ghost use Rattle.cj_tokens.specs.declared.terminal.Terminal.TheVariants.{BadCharacter, Text};

use crate::lexeme::Lexeme;
use crate::terminal::Terminal;
use cj_ir::texts::{is_letter, keyword_place};

/// The token of those bytes, which are one token or a byte that begins none; no bytes are the end.
#[tactic(auto, unfolding(crate::specs::Spellings::lexeme_of))]
pub(crate) fn lexeme<'a>(spelling: &'a [u8], line: u32) -> Lexeme<'a>
    ensures { seen result ≡ lexeme_of line spelling.now }
{
    let (terminal, number) = terminal(spelling);
    Lexeme {
        terminal,
        line,
        text: text(spelling),
        number,
    }
}

pub(crate) fn begins_number(first: u8, rest: &[u8]) -> bool
    ensures { result ≡ begins_number first rest.now }
{
    first.is_ascii_digit()
        || (first == b'-' && rest.first().is_some_and(|byte| byte.is_ascii_digit()))
}

// What the token is, with the value of a number; 0 of any other token, and of a number that no i64 is.
#[tactic(auto, using(crate::proofs::Again::letter_no_number), unfolding(crate::specs::Spellings::terminal_of, crate::specs::Spellings::worth))]
fn terminal(spelling: &[u8]) -> (Terminal, i64)
    ensures terminal { result.0 ≡ terminal_of spelling.now }
    ensures number { result.1 ≡ worth spelling.now }
{
    let [first, rest @ ..] = spelling else {
        return (Terminal::End, 0);
    };
    if is_letter(*first) {
        (word_terminal(spelling), 0)
    } else if begins_number(*first, rest) {
        match number(spelling) {
            Some(value) => (Terminal::Number, value),
            None => (Terminal::BadNumber, 0),
        }
    } else if *first == b'"' {
        (quoted(rest), 0)
    } else {
        (mark_terminal(spelling), 0)
    }
}

// What stands behind a quote makes a text of it, or the quote begins no token.
fn quoted(behind: &[u8]) -> Terminal
    ensures { result ≡ cond (length behind.now == 0) BadCharacter Text }
{
    if behind.is_empty() {
        Terminal::BadCharacter
    } else {
        Terminal::Text
    }
}

// The bytes; of a text those between its quotes.
#[tactic(auto, unfolding(crate::specs::Spellings::text_of))]
fn text(spelling: &[u8]) -> &[u8]
    ensures { result.now ≡ text_of spelling.now }
{
    match spelling {
        [b'"', inside @ .., _] => inside,
        [b'"'] => &[],
        _ => spelling,
    }
}

// A keyword's terminal; any other word is a name.
#[tactic(auto, using(crate::proofs::Tables::word_without_place))]
fn word_terminal(word: &[u8]) -> Terminal
    ensures { result ≡ word_terminal word.now }
{
    match keyword_place(word) {
        Some(place) => terminal_at(keyword_terminals(), place).unwrap_or(Terminal::Name),
        None => Terminal::Name,
    }
}

fn terminal_at(terminals: &[Terminal], place: usize) -> Option<Terminal>
    ensures { result ≡ slice_get terminals.now place }
{
    terminals.get(place).copied()
}

// The terminals of the keywords, by the places of these.
fn keyword_terminals() -> &'static [Terminal]
    ensures { result.now ≡ keyword_terminals }
{
    &[
        Terminal::Fun,
        Terminal::Nop,
        Terminal::Op,
        Terminal::Cond,
        Terminal::Call,
        Terminal::Return,
        Terminal::Print,
        Terminal::Load,
        Terminal::Store,
        Terminal::Fail,
        Terminal::Neg,
        Terminal::Eqz,
        Terminal::Calls,
        Terminal::Guess,
        Terminal::Cold,
        Terminal::Then,
        Terminal::Else,
        Terminal::Warm,
        Terminal::Memory,
        Terminal::Limit,
        Terminal::Events,
        Terminal::Begin,
        Terminal::Step,
        Terminal::Compile,
        Terminal::Anchors,
        Terminal::Assume,
        Terminal::Delay,
        Terminal::Const,
        Terminal::Inline,
        Terminal::When,
        Terminal::Never,
        Terminal::Keep,
    ]
}

// A mark's terminal; any other byte begins no token.
#[tactic(auto, unfolding(crate::specs::Spellings::mark_table))]
fn mark_terminal(mark: &[u8]) -> Terminal
    ensures { result ≡ mark_terminal mark.now }
{
    match mark {
        [b'-', b'>'] => Terminal::Arrow,
        [byte] => one_byte_mark(*byte),
        _ => Terminal::BadCharacter,
    }
}

// The terminal of a mark of that one byte.
#[tactic(auto, unfolding(crate::specs::Spellings::mark_table))]
fn one_byte_mark(byte: u8) -> Terminal
    ensures { result ≡ mark_terminal (byte ∷ []) }
{
    match byte {
        b'(' => Terminal::OpenParen,
        b')' => Terminal::CloseParen,
        b'{' => Terminal::OpenBrace,
        b'}' => Terminal::CloseBrace,
        b'[' => Terminal::OpenBracket,
        b']' => Terminal::CloseBracket,
        b',' => Terminal::Comma,
        b';' => Terminal::Semicolon,
        b':' => Terminal::Colon,
        b'=' => Terminal::Equals,
        b'+' => Terminal::Plus,
        b'-' => Terminal::Minus,
        b'*' => Terminal::Star,
        b'/' => Terminal::Slash,
        b'%' => Terminal::Percent,
        b'<' => Terminal::Less,
        _ => Terminal::BadCharacter,
    }
}

// The value of a number. None: no i64 is that.
fn number(spelling: &[u8]) -> Option<i64>
    ensures { result ≡ cond (fits_i64 spelling.now) (Some (number_value spelling.now)) None }
{
    match spelling {
        [b'-', digits @ ..] => below_zero(magnitude(digits)),
        _ => i64::try_from(magnitude(spelling)).ok(),
    }
}

// The number with that distance from 0, below it.
fn below_zero(distance: u64) -> Option<i64>
    ensures { result ≡ cond (nat_le distance 9223372036854775808) (Some (neg_ℤ (pos distance))) None }
{
    0i64.checked_sub_unsigned(distance)
}

// What digits are worth, up to one more than any number may be.
#[tactic(auto, using(crate::proofs::Magnitudes::magnitude_turn, crate::proofs::Magnitudes::magnitude_end))]
fn magnitude(digits: &[u8]) -> u64
    ensures { result ≡ min (value 0 digits.now) 9223372036854775809 }
{
    let mut worth: u64 = 0;
    for byte in digits {
        let next = worth
            .saturating_mul(10)
            .saturating_add(byte.saturating_sub(48) as u64);
        worth = next.min(9_223_372_036_854_775_809);
    }
    worth
}
