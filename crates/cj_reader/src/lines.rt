//! The lines of functions.

ghost use Rattle.std.specs.Prelude.{◌≡◌, ◌≤◌, length, []};
ghost use Rattle.cj_tokens.specs.Seen.{seen};
ghost use Rattle.cj_tokens.specs.Left.{left, source};
ghost use Rattle.cj_grammar.specs.Readers.{Found, Gives, each_at};
ghost use Rattle.cj_reader.specs.Known.{scope_in, Grows};
ghost use Rattle.cj_reader.specs.Reading.{is_before, line_number_at, line_at, one_more_at, body_at};

use crate::instructions::read_instr;
use crate::memory::remembered;
use crate::operands::is_line_number;
use crate::refusals::refuse_if;
use crate::scope::Scope;
use cj_ir::limits::MAX_LABELS;
use cj_ir::{Line, Lines};
use cj_tokens::{Kind, Lexeme, ParseError, Tokens};
use std::alloc::Global;

// What was found stands before a place.
fn is_before(at: usize, found: Option<u32>) -> bool
    ensures { result ≡ is_before at found }
{
    match found {
        None => false,
        Some(place) => (place as usize) < at,
    }
}

// The number of the line at a place.
#[tactic(auto, unfolding(crate::specs::Reading::line_number_at))]
fn line_number(scope: Scope<'_>, at: usize, token: Lexeme<'_>) -> Result<u32, ParseError>
    ensures { Found result (line_number_at (scope_in scope.entry) at (seen token.entry)) }
{
    refuse_if(at >= MAX_LABELS, token, Kind::TooMany)?;
    refuse_if(!is_line_number(token.number), token, Kind::Range)?;
    let found = scope.labels.place(token.number);
    refuse_if(is_before(at, found), token, Kind::LabelTwice)?;
    Ok(token.number as u32)
}

// A line, behind the earlier ones.
#[tactic(auto, unfolding(crate::specs::Reading::line_at))]
fn read_line(
    alloc: Global,
    tokens: &mut Tokens<'_>,
    scope: Scope<'_>,
    earlier: &[Line],
) -> Result<Line, ParseError>
    ensures reads { Gives result (left tokens.new) (line_at (scope_in scope.entry) earlier.now (left tokens.old)) }
    ensures source { source tokens.new ≡ source tokens.old }
{
    let number = tokens.take();
    let name = line_number(scope, earlier.len(), number)?;
    let _colon = tokens.take();
    let instr = read_instr(alloc, tokens, scope)?;
    Ok(Line { name, instr })
}

fn add_line(
    alloc: Global,
    tokens: &mut Tokens<'_>,
    scope: Scope<'_>,
    lines: &mut Lines,
) -> Result<(), ParseError>
    ensures reads { Grows result lines.new (left tokens.new) (one_more_at (line_at (scope_in scope.entry)) lines.old (left tokens.old)) }
    ensures source { source tokens.new ≡ source tokens.old }
{
    let line = read_line(alloc, tokens, scope, lines.items())?;
    remembered(lines.push(line))
}

// So many lines.
fn read_lines(
    alloc: Global,
    tokens: &mut Tokens<'_>,
    scope: Scope<'_>,
    count: u32,
) -> Result<Lines, ParseError>
    ensures reads { Gives result (left tokens.new) (each_at (line_at (scope_in scope.entry)) count [] (left tokens.old)) }
    ensures source { source tokens.new ≡ source tokens.old }
{
    let mut lines = Lines::new(alloc);
    'more: for k in 0..count {
        match add_line(alloc, tokens, scope, &mut lines) {
            Ok(()) => {}
            Err(error) => return Err(error),
        }
    }
    Ok(lines)
}

/// So many lines, and the end of their function.
#[tactic(auto, unfolding(crate::specs::Reading::body_at))]
pub fn read_body(
    alloc: Global,
    tokens: &mut Tokens<'_>,
    scope: Scope<'_>,
    count: u32,
) -> Result<Lines, ParseError>
    ensures reads { Gives result (left tokens.new) (body_at (scope_in scope.entry) count (left tokens.old)) }
    ensures source { source tokens.new ≡ source tokens.old }
{
    let lines = read_lines(alloc, tokens, scope, count)?;
    let brace = tokens.take();
    refuse_if(lines.items().is_empty(), brace, Kind::NoEntry)?;
    Ok(lines)
}
