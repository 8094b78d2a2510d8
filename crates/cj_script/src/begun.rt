//! What begins a run, behind its first word: the function, the arguments, the cells and the limit.

ghost use Rattle.std.specs.Prelude.{◌≡◌, ◌+◌, ◌≤◌, ◌++◌, List, pos, length, IfOk, OnOk};
ghost use Rattle.cj_ir.specs.Texts.{is_name};
ghost use Rattle.cj_tokens.specs.Left.{left, source};
ghost use Rattle.cj_tokens.specs.Seen.{seen};
ghost use Rattle.cj_grammar.specs.Grammar.{Tree, leaves};
ghost use Rattle.cj_grammar.specs.Readers.{Gives, reads};
ghost use Rattle.cj_grammar.specs.Rules.{begun};
ghost use Rattle.cj_tokens.specs.Lexemes.{Lexeme};
ghost use Rattle.cj_script.specs.Fitting.{FitsCall};
ghost use Rattle.cj_script.specs.Meaning.{begun_offences, begun_of};
ghost use Rattle.cj_script.specs.Reading.{numbers_at, behind_numbers, cells_at, limit_at, begun_at};

use crate::judge::{callee, limit_behind, number_within};
use crate::limits::USUAL_CELLS;
use cj_ir::limits::MAX_FUNCTIONS;
use cj_ir::{Function, NoMemory, ScriptCall, Values};
use cj_tokens::{ParseError, Terminal, Tokens};
use std::alloc::Global;

/// The numbers that stand next.
#[tactic(auto, using(crate::proofs::Turns::numbers_turn, crate::proofs::Turns::numbers_stop, crate::proofs::Turns::behind_turn, crate::proofs::Turns::behind_stop, crate::proofs::Turns::number_shorter))]
fn read_numbers(alloc: Global, tokens: &mut Tokens<'_>) -> Result<Values, NoMemory>
    ensures numbers { IfOk result (λ numbers. numbers ≡ numbers_at (left tokens.old)) }
    ensures left { OnOk result (left tokens.new ≡ behind_numbers (left tokens.old)) }
    ensures source { source tokens.new ≡ source tokens.old }
{
    let mut numbers = Values::new(alloc);
    'numbers: while tokens.is_at(Terminal::Number) {
        let token = tokens.take();
        numbers.push(token.number)?;
    }
    Ok(numbers)
}

/// The cells behind `memory`, or as many as are usual where it does not stand there.
#[tactic(auto, unfolding(crate::specs::Reading::cells_at))]
fn read_cells(tokens: &mut Tokens<'_>) -> Result<u32, ParseError>
    ensures gives { Gives result (left tokens.new) (cells_at (left tokens.old)) }
    ensures source { source tokens.new ≡ source tokens.old }
{
    if tokens.is_at(Terminal::Memory) {
        let _memory = tokens.take();
        let cells = tokens.take();
        number_within(cells, 0, 65_536)
    } else {
        Ok(USUAL_CELLS)
    }
}

/// The limit.
#[tactic(auto, unfolding(crate::specs::Reading::limit_at))]
fn read_limit(tokens: &mut Tokens<'_>, spent: u32) -> Result<u32, ParseError>
    requires { spent ≤ 4000000 }
    ensures gives { Gives result (left tokens.new) (limit_at spent (left tokens.old)) }
    ensures source { source tokens.new ≡ source tokens.old }
    ensures within { IfOk result (λ limit. spent + limit ≤ 4000000) }
{
    let _limit = tokens.take();
    let limit = tokens.take();
    limit_behind(limit, spent)
}

// What begins a run.
#[tactic(auto, unfolding(crate::specs::Reading::begun_at))]
pub fn read_run(
    alloc: Global,
    tokens: &mut Tokens<'_>,
    functions: &[Function],
    spent: u32,
) -> Result<ScriptCall, ParseError>
    requires few { length functions.now ≤ MAX_FUNCTIONS }
    requires spent { spent ≤ 4000000 }
    ensures gives { Gives result (left tokens.new) (begun_at functions.now spent (left tokens.old)) }
    ensures source { source tokens.new ≡ source tokens.old }
    ensures within { IfOk result (λ call. spent + call.limit ≤ 4000000) }
{
    let name = tokens.take();
    let args = match read_numbers(alloc, tokens) {
        Ok(args) => args,
        Err(NoMemory) => return Err(ParseError::NoMemory),
    };
    let function = callee(functions, args.items().len(), name)?;
    let cells = read_cells(tokens)?;
    let limit = read_limit(tokens, spent)?;
    Ok(ScriptCall {
        function,
        args,
        cells,
        limit,
    })
}

/// What begins a run, behind its first word, where `spent` is the sum of the limits before it, at most 4,000,000: a
/// function of the program, its arguments, the cells, which are `USUAL_CELLS` where nothing is said and at most 65,536, and the
/// limit, from 1 to 1,000,000. Refused: the first offence of its tokens. After an error the tokens stand somewhere
/// behind where they stood.
pub fn read_begun(
    alloc: Global,
    tokens: &mut Tokens<'_>,
    functions: &[Function],
    spent: u32,
) -> Result<ScriptCall, ParseError>
    requires few { length functions.now ≤ MAX_FUNCTIONS }
    requires spent { spent ≤ 4000000 }
    ensures meaning { (t : Tree begun) (rest : List Lexeme) → left tokens.old ≡ leaves begun t ++ rest →
        Gives result (left tokens.new) (reads (begun_offences functions.now (pos spent) t) (begun_of functions.now t) rest) }
    ensures gives { Gives result (left tokens.new) (begun_at functions.now spent (left tokens.old)) }
    ensures source { source tokens.new ≡ source tokens.old }
    ensures fits { IfOk result (FitsCall functions.now) }
    ensures within { IfOk result (λ call. spent + call.limit ≤ 4000000) }
{
    read_run(alloc, tokens, functions, spent)
}
