//! The tokens of a text, read from its bytes as they are asked for.

ghost use Rattle.std.specs.Prelude.{◌≡◌, ◌≤◌, length, true};
ghost use Rattle.cj_tokens.specs.Lexemes.{is_terminal};
ghost use Rattle.cj_tokens.specs.Scan.{IsToken};
ghost use Rattle.cj_tokens.specs.Words.{is_well};
ghost use Rattle.cj_tokens.specs.Seen.{seen, placed};
ghost use Rattle.cj_tokens.specs.declared.terminal.Terminal.TheVariants.{End};

use crate::lexeme::{Lexeme, Scanned};
use crate::piece::{Token, given, is_passed};
use crate::refusal::Refused;
use crate::scan::scan;
use crate::terminal::Terminal;

/// What is left of a text's tokens: `left` in contracts, a list of which the last is the end, and which is empty
/// once the end is taken. `source` is the text. It takes no memory.
#[derive(Clone, Copy, Debug)]
pub struct Tokens<'a> {
    bytes: &'a [u8],
    ahead: Scanned<'a>,
    is_past_end: bool,
    ghost within: { ahead.stop ≤ length bytes.now },
    ghost well: { is_well (seen ahead.lexeme) ≡ true },
    ghost token: { IsToken bytes.now (placed ahead) },
    ghost end: { is_past_end ≡ true → is_terminal End (seen ahead.lexeme) ≡ true },
}

/// The next token is another than was asked for.
#[derive(Clone, Copy, Debug, PartialEq, Eq)]
pub struct Unfit;

impl<'a> Tokens<'a> {
    ghost use Rattle.std.specs.Prelude.{◌≡◌, OnErr, cond, map, List, ℕ, true, drop, length, ◌≤◌};
    ghost use Rattle.std.specs.List.{list_all};
    ghost use Rattle.cj_ir.specs.Texts.{is_text_byte};
    ghost use Rattle.cj_tokens.specs.Ends.{HasOneEnd};
    ghost use Rattle.cj_tokens.specs.Lexemes.{is_terminal, Is};
    ghost use Rattle.cj_tokens.specs.Passing.{front, behind, pass, ended};
    ghost use Rattle.cj_tokens.specs.Scan.{items_of, lexemes_of, items, items_from};
    ghost use Rattle.cj_tokens.specs.Seen.{seen, placed};
    ghost use Rattle.cj_tokens.specs.Left.{left, source, stream};
    ghost use Rattle.cj_tokens.specs.Words.{is_free_word, is_well};
    ghost use Rattle.cj_tokens.specs.Pieces.{next_of, past_items, past_lexemes};
    ghost use Rattle.cj_tokens.specs.declared.terminal.Terminal.TheVariants.{Name, Text};

    /// The tokens of a text of those bytes.
    #[tactic(auto, unfolding(crate::specs::Left::source))]
    pub fn of(bytes: &'a [u8]) -> Tokens<'a>
        ensures stream { stream result ≡ items_of bytes.now }
        ensures left { left result ≡ lexemes_of bytes.now }
        ensures source { source result ≡ bytes.now }
        ensures end { HasOneEnd (lexemes_of bytes.now) }
    {
        Tokens {
            bytes,
            ahead: scan(bytes, 0, 1),
            is_past_end: false,
        }
    }

    /// The next token, which stays. Once the end is taken: an end in line 0.
    ///
    /// A name's bytes are a letter or `_`, then letters, digits and `_`, of any number, and no keyword's; a text's are
    /// printable, and none is a quote.
    #[tactic(auto, using(crate::proofs::Wells::well_name, crate::proofs::Wells::well_text), unfolding(crate::specs::Left::left, crate::specs::Left::stream, crate::specs::Scan::items_from, crate::specs::Passing::front))]
    pub fn front(&self) -> Lexeme<'a>
        ensures token { seen result ≡ front (left self.now) }
        ensures name { result.terminal ≡ Name → is_free_word result.text.now ≡ true }
        ensures text { result.terminal ≡ Text → list_all is_text_byte result.text.now ≡ true }
    {
        if self.is_past_end {
            Lexeme {
                terminal: Terminal::End,
                line: 0,
                text: &[],
                number: 0,
            }
        } else {
            self.ahead.lexeme
        }
    }

    /// What the next token is.
    pub fn peek(&self) -> Terminal
        ensures { result ≡ (front (left self.now)).terminal }
    {
        self.front().terminal
    }

    /// Whether the next token is such a one.
    #[tactic(auto, using(crate::proofs::Numbered::same_number))]
    pub fn is_at(&self, terminal: Terminal) -> bool
        ensures { result ≡ is_terminal terminal (front (left self.now)) }
    {
        self.peek() == terminal
    }

    /// The line of the next token.
    pub fn line(&self) -> u32
        ensures { result ≡ (front (left self.now)).line }
    {
        self.front().line
    }

    /// Takes the next token. Once the end is taken: an end in line 0.
    #[tactic(auto, unfolding(crate::specs::Left::source))]
    pub fn take(&mut self) -> Lexeme<'a>
        ensures token { seen result ≡ front (left self.old) }
        ensures left { left self.new ≡ behind (left self.old) }
        ensures source { source self.new ≡ source self.old }
        ensures name { result.terminal ≡ Name → is_free_word result.text.now ≡ true }
        ensures text { result.terminal ≡ Text → list_all is_text_byte result.text.now ≡ true }
    {
        let token = self.front();
        if self.is_at(Terminal::End) {
            self.is_past_end = true;
        } else {
            self.ahead = self.behind();
        }
        token
    }

    /// Takes the next token, which has to be such a one. Unfit: it is another, or the end is taken already; nothing
    /// is taken then.
    pub fn expect(&mut self, terminal: Terminal) -> Result<(), Unfit>
        ensures taken { pass (Is terminal) (left self.old) ≡ ended result (left self.new) }
        ensures source { source self.new ≡ source self.old }
        ensures same { OnErr result (self.new ≡ self.old) }
    {
        if self.is_past_end {
            Err(Unfit)
        } else if self.is_at(terminal) {
            let _token = self.take();
            Ok(())
        } else {
            Err(Unfit)
        }
    }

    /// The next token; goes past it, unless it is the end, which is given each time. Refused: exactly where a
    /// Character or Number offence stands next, and the tokens stay as they were.
    #[tactic(auto, unfolding(crate::specs::Left::source))]
    pub fn next(&mut self) -> Result<Token, Refused>
        ensures answer { result ≡ next_of (stream self.old) }
        ensures stream { stream self.new ≡ past_items (stream self.old) }
        ensures left { left self.new ≡ past_lexemes (left self.old) }
        ensures source { source self.new ≡ source self.old }
        ensures end { HasOneEnd (left self.old) → HasOneEnd (left self.new) }
        ensures same { OnErr result (self.new ≡ self.old) }
    {
        let answer = given(&self.ahead);
        if is_passed(self.ahead.lexeme.terminal) {
            self.ahead = self.behind();
        }
        answer
    }

    // What stands behind the next token.
    fn behind(&self) -> Scanned<'a>
        ensures found { items 0 self.now.ahead.lexeme.line self.now.ahead.stop (drop self.now.ahead.stop self.now.bytes.now) ≡ items_from self.now.bytes.now (placed result) }
        ensures within { result.stop ≤ length self.now.bytes.now }
        ensures well { is_well (seen result.lexeme) ≡ true }
    {
        scan(self.bytes, self.ahead.stop, self.ahead.lexeme.line)
    }
}
