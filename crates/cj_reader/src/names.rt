//! The names that a function declares.

ghost use Rattle.std.specs.Prelude.{◌≡◌, ◌≤◌, ◌<◌, length, [], IfOk, OnOk};
ghost use Rattle.std.specs.List.{list_any};
ghost use Rattle.std.specs.Str.{bytes_eq};
ghost use Rattle.cj_tokens.specs.Left.{left, source};
ghost use Rattle.cj_grammar.specs.Readers.{Gives, each_at};
ghost use Rattle.cj_reader.specs.Known.{Grows};
ghost use Rattle.cj_reader.specs.Reading.{name_at, next_name_at, names_at, others_at, one_more_at};

use crate::counts::count_items;
use crate::memory::remembered;
use crate::refusals::refuse_if;
use crate::words::{is_too_many, word};
use cj_ir::limits::MAX_REGS;
use cj_ir::{Name, Names};
use cj_tokens::{Kind, ParseError, Terminal, Tokens};
use std::alloc::Global;

// A name is among them.
fn is_among(names: &[Name], text: &[u8]) -> bool
    ensures { result ≡ list_any (λ other. bytes_eq other text.now) names.now }
{
    names.iter().any(|other| other.bytes() == text)
}

// A name, behind the ones before it, in a list of at most so many.
#[tactic(auto, unfolding(crate::specs::Reading::name_at))]
fn read_name(
    alloc: Global,
    tokens: &mut Tokens<'_>,
    limit: usize,
    earlier: &[Name],
) -> Result<Name, ParseError>
    ensures reads { Gives result (left tokens.new) (name_at limit earlier.now (left tokens.old)) }
    ensures source { source tokens.new ≡ source tokens.old }
    ensures few { OnOk result (length earlier.now < limit) }
{
    let token = tokens.take();
    let too_many = is_too_many(token, limit, earlier.len());
    refuse_if(too_many, token, Kind::TooMany)?;
    let twice = is_among(earlier, token.text);
    refuse_if(twice, token, Kind::NameTwice)?;
    word(alloc, token)
}

fn add_name(
    alloc: Global,
    tokens: &mut Tokens<'_>,
    limit: usize,
    names: &mut Names,
) -> Result<(), ParseError>
    ensures reads { Grows result names.new (left tokens.new) (one_more_at (name_at limit) names.old (left tokens.old)) }
    ensures source { source tokens.new ≡ source tokens.old }
    ensures few { OnOk result (length names.new ≤ limit) }
{
    let name = read_name(alloc, tokens, limit, names.items())?;
    remembered(names.push(name))
}

// A comma and a name.
fn add_next(
    alloc: Global,
    tokens: &mut Tokens<'_>,
    limit: usize,
    names: &mut Names,
) -> Result<(), ParseError>
    ensures reads { Grows result names.new (left tokens.new) (one_more_at (next_name_at limit) names.old (left tokens.old)) }
    ensures source { source tokens.new ≡ source tokens.old }
    ensures few { OnOk result (length names.new ≤ limit) }
{
    let _comma = tokens.take();
    add_name(alloc, tokens, limit, names)
}

// So many names, each behind a comma.
fn read_more(
    alloc: Global,
    tokens: &mut Tokens<'_>,
    limit: usize,
    count: u32,
    mut names: Names,
) -> Result<Names, ParseError>
    requires { length names ≤ limit }
    ensures reads { Gives result (left tokens.new) (each_at (next_name_at limit) count names (left tokens.old)) }
    ensures source { source tokens.new ≡ source tokens.old }
    ensures few { IfOk result (λ all. length all ≤ limit) }
{
    'more: for k in 0..count {
        match add_next(alloc, tokens, limit, &mut names) {
            Ok(()) => {}
            Err(error) => return Err(error),
        }
    }
    Ok(names)
}

/// So many names, behind names that were declared before.
pub fn read_names(
    alloc: Global,
    tokens: &mut Tokens<'_>,
    limit: usize,
    count: u32,
    mut names: Names,
) -> Result<Names, ParseError>
    requires { length names ≤ limit }
    ensures reads { Gives result (left tokens.new) (names_at limit count names (left tokens.old)) }
    ensures source { source tokens.new ≡ source tokens.old }
    ensures few { IfOk result (λ all. length all ≤ limit) }
{
    if count == 0 {
        return Ok(names);
    }
    add_name(alloc, tokens, limit, &mut names)?;
    read_more(alloc, tokens, limit, count - 1, names)
}

/// The registers behind the parameters.
#[tactic(auto, unfolding(crate::specs::Reading::others_at))]
pub fn read_others(
    alloc: Global,
    tokens: &mut Tokens<'_>,
    params: Names,
) -> Result<Names, ParseError>
    requires { length params ≤ MAX_REGS }
    ensures reads { Gives result (left tokens.new) (others_at params (left tokens.old)) }
    ensures source { source tokens.new ≡ source tokens.old }
    ensures few { IfOk result (λ all. length all ≤ MAX_REGS) }
{
    if tokens.is_at(Terminal::Semicolon) {
        let _mark = tokens.take();
        let count = count_items(*tokens)?;
        read_names(alloc, tokens, MAX_REGS, count, params)
    } else {
        Ok(params)
    }
}
