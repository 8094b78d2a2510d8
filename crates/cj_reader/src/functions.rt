//! Functions.

ghost use Rattle.std.specs.Prelude.{◌≡◌, ◌≤◌, length, true, []};
ghost use Rattle.cj_tokens.specs.Words.{is_free_word};
ghost use Rattle.cj_tokens.specs.Seen.{seen};
ghost use Rattle.cj_tokens.specs.Left.{left, source};
ghost use Rattle.cj_tokens.specs.declared.terminal.Terminal.TheVariants as terminal;
ghost use Rattle.cj_grammar.specs.Readers.{Found, Gives, each_at};
ghost use Rattle.cj_reader.specs.Known.{function_in, Grows};
ghost use Rattle.cj_reader.specs.Reading.{is_earlier, function_name_at, code_at, function_at, one_more_at};

use crate::declarations::{Declared, read_declared};
use crate::lines::read_body;
use crate::memory::remembered;
use crate::prescan::scan_lines;
use crate::refusals::refuse_if;
use crate::scope::{Callee, Functions, Scope};
use crate::words::{is_too_many, word};
use cj_ir::limits::{MAX_FUNCTIONS, MAX_REGS};
use cj_ir::{Function, Lines, Name};
use cj_tokens::{Kind, Lexeme, ParseError, Tokens};
use std::alloc::Global;

// What was found is a function before a place.
fn is_earlier(at: usize, found: Option<Callee>) -> bool
    ensures { result ≡ is_earlier at found }
{
    match found {
        None => false,
        Some(callee) => (callee.function.0 as usize) < at,
    }
}

// The name of the function at a place.
#[tactic(auto, unfolding(crate::specs::Reading::function_name_at))]
fn function_name(
    alloc: Global,
    functions: &Functions<'_>,
    at: usize,
    token: Lexeme<'_>,
) -> Result<Name, ParseError>
    requires { token.terminal ≡ terminal.Name → is_free_word token.text.now ≡ true }
    ensures { Found result (function_name_at (function_in functions.now) at (seen token.entry)) }
{
    let too_many = is_too_many(token, MAX_FUNCTIONS, at);
    refuse_if(too_many, token, Kind::TooMany)?;
    let found = functions.callee(token.text);
    refuse_if(is_earlier(at, found), token, Kind::NameTwice)?;
    word(alloc, token)
}

// The lines of a function with these registers, and its end.
#[tactic(auto, using(crate::proofs::Known::code_same))]
fn read_code(
    alloc: Global,
    tokens: &mut Tokens<'_>,
    functions: &Functions<'_>,
    registers: &[Name],
) -> Result<Lines, ParseError>
    requires { length registers.now ≤ MAX_REGS }
    ensures reads { Gives result (left tokens.new) (code_at (function_in functions.now) registers.now (left tokens.old)) }
    ensures source { source tokens.new ≡ source tokens.old }
{
    let labels = scan_lines(alloc, *tokens)?;
    let scope = Scope {
        registers,
        labels: &labels,
        functions,
    };
    read_body(alloc, tokens, scope, labels.count)
}

// A function, behind the earlier ones.
#[tactic(auto, unfolding(crate::specs::Reading::function_at))]
fn read_function(
    alloc: Global,
    tokens: &mut Tokens<'_>,
    functions: &Functions<'_>,
    earlier: &[Function],
) -> Result<Function, ParseError>
    ensures reads { Gives result (left tokens.new) (function_at (function_in functions.now) earlier.now (left tokens.old)) }
    ensures source { source tokens.new ≡ source tokens.old }
{
    let _fun = tokens.take();
    let token = tokens.take();
    let name = function_name(alloc, functions, earlier.len(), token)?;
    let Declared { params, registers } = read_declared(alloc, tokens)?;
    let _brace = tokens.take();
    let code = read_code(alloc, tokens, functions, registers.items())?;
    Ok(Function {
        name,
        params,
        regs: registers,
        code,
    })
}

fn add_function(
    alloc: Global,
    tokens: &mut Tokens<'_>,
    functions: &Functions<'_>,
    all: &mut cj_ir::Functions,
) -> Result<(), ParseError>
    ensures reads { Grows result all.new (left tokens.new) (one_more_at (function_at (function_in functions.now)) all.old (left tokens.old)) }
    ensures source { source tokens.new ≡ source tokens.old }
{
    let function = read_function(alloc, tokens, functions, all.items())?;
    remembered(all.push(function))
}

/// All functions of a text, which are known ahead.
pub fn read_functions(
    alloc: Global,
    tokens: &mut Tokens<'_>,
    functions: &Functions<'_>,
) -> Result<cj_ir::Functions, ParseError>
    ensures reads { Gives result (left tokens.new) (each_at (function_at (function_in functions.now)) functions.now.count [] (left tokens.old)) }
    ensures source { source tokens.new ≡ source tokens.old }
{
    let mut all = cj_ir::Functions::new(alloc);
    let count = functions.count;
    'more: for k in 0..count {
        match add_function(alloc, tokens, functions, &mut all) {
            Ok(()) => {}
            Err(error) => return Err(error),
        }
    }
    Ok(all)
}
