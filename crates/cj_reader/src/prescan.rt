//! What is looked up ahead of the reading: the lines of a function, and the functions of a text.

ghost use Rattle.std.specs.Prelude.{◌≡◌, ℤ, List, ◌++◌, OnOk, IfOk, IfErr};
ghost use Rattle.cj_tokens.specs.Seen.{seen};
ghost use Rattle.cj_tokens.specs.Left.{left};
ghost use Rattle.cj_tokens.specs.Passing.{front, behind};
ghost use Rattle.cj_tokens.specs.declared.refusal.ParseError.TheVariants as parse;
ghost use Rattle.cj_reader.specs.Scopes.{Head};
ghost use Rattle.cj_reader.specs.Prescans.{ends_body, numbered, numbers_at, head_at, ends_functions, headed, heads_at};
ghost use Rattle.cj_reader.specs.Known.{ListsLines, ListsFunctions};

use crate::counts::count_items;
use crate::scope::{Functions, Labels};
use cj_tokens::{Lexeme, ParseError, Terminal, Tokens};
use std::alloc::Global;

// Whether a function ends there.
fn ends_body(tokens: &Tokens<'_>) -> bool
    ensures { result ≡ ends_body (front (left tokens.now)) }
{
    matches!(tokens.peek(), Terminal::CloseBrace | Terminal::End)
}

// A number in front of a `:` is a line's.
fn note_line(labels: &mut Labels, token: Lexeme<'_>, next: Terminal) -> Result<(), ParseError>
    ensures noted { OnOk result ((numbers : List ℤ) → ListsLines numbers labels.old → ListsLines (numbers ++ numbered (seen token.entry) next) labels.new) }
    ensures err { IfErr result (λ error. error ≡ parse.NoMemory) }
{
    if next == Terminal::Colon {
        labels.note(token.number)
    } else {
        Ok(())
    }
}

/// The lines of a function, of which the first one is next.
pub fn scan_lines(alloc: Global, mut tokens: Tokens<'_>) -> Result<Labels, ParseError>
    ensures lines { IfOk result (ListsLines (numbers_at (left tokens.entry))) }
    ensures err { IfErr result (λ error. error ≡ parse.NoMemory) }
{
    let mut labels = Labels::new(alloc);
    'more: while !ends_body(&tokens) {
        let token = tokens.take();
        match note_line(&mut labels, token, tokens.peek()) {
            Ok(()) => {}
            Err(error) => return Err(error),
        }
    }
    Ok(labels)
}

// Whether the last function ends there.
fn ends_functions(mut tokens: Tokens<'_>) -> bool
    ensures { result ≡ ends_functions (front (left tokens.entry)) (behind (left tokens.entry)) }
{
    match tokens.peek() {
        Terminal::End => true,
        Terminal::CloseBrace => {
            let _brace = tokens.take();
            tokens.peek() != Terminal::Fun
        }
        _ => false,
    }
}

// The name and the number of parameters behind `fun`.
fn read_head<'a>(mut tokens: Tokens<'a>) -> Result<(&'a [u8], u32), ParseError>
    ensures head { IfOk result (λ head. head_at (left tokens.entry) ≡ record { name = head.0.now; params = head.1 }) }
    ensures err { IfErr result (λ error. error ≡ parse.NoMemory) }
{
    let name = tokens.take();
    let _paren = tokens.take();
    let params = count_items(tokens)?;
    Ok((name.text, params))
}

// Behind `fun` stands the head of a function.
fn note_function<'a>(
    functions: &mut Functions<'a>,
    token: Lexeme<'a>,
    behind: Tokens<'a>,
) -> Result<(), ParseError>
    ensures noted { OnOk result ((heads : List Head) → ListsFunctions heads functions.old → ListsFunctions (heads ++ headed (seen token.entry) (left behind.entry)) functions.new) }
    ensures err { IfErr result (λ error. error ≡ parse.NoMemory) }
{
    if token.terminal == Terminal::Fun {
        let (name, params) = read_head(behind)?;
        functions.note(name, params)
    } else {
        Ok(())
    }
}

/// The functions of a text, of which the first one is next.
pub fn scan_functions<'a>(
    alloc: Global,
    mut tokens: Tokens<'a>,
) -> Result<Functions<'a>, ParseError>
    ensures functions { IfOk result (ListsFunctions (heads_at (left tokens.entry))) }
    ensures err { IfErr result (λ error. error ≡ parse.NoMemory) }
{
    let mut functions = Functions::new(alloc);
    'more: while !ends_functions(tokens) {
        let token = tokens.take();
        match note_function(&mut functions, token, tokens) {
            Ok(()) => {}
            Err(error) => return Err(error),
        }
    }
    Ok(functions)
}
