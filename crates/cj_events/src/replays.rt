//! Replays from their bytes.

ghost use Rattle.std.specs.Prelude.{◌≡◌, ◌≤◌, ◌∷◌, ◌++◌, Ok, Err, true, IfOk, IfErr, List, length};
ghost use Rattle.cj_tokens.specs.Left.{left, source};
ghost use Rattle.cj_tokens.specs.Lexemes.{Lexeme, is_terminal};
ghost use Rattle.cj_tokens.specs.declared.terminal.Terminal.TheVariants.{End};
ghost use Rattle.cj_grammar.specs.Grammar.{Tree, leaves, IsSentence};
ghost use Rattle.cj_grammar.specs.Readers.{Gives, reads};
ghost use Rattle.cj_events.specs.Fitting.{FitsEvents};
ghost use Rattle.cj_events.specs.Playable.{CanPlay};
ghost use Rattle.cj_events.specs.Meaning.{history_offences, history_of};
ghost use Rattle.cj_events.specs.Reading.{history_at};
ghost use Rattle.cj_grammar.specs.Sentences.{Agrees};
ghost use Rattle.cj_events.specs.Replays.{replay_offences, replay_of, ReadsReplay, IsReplayError, IsOnlyReplay};
ghost use Rattle.cj_events.specs.Rules.{history, replay};

use crate::event_grammar::fits_replay;
use crate::events::Events;
use crate::readers::read_events;
use cj_ir::limits::MAX_FUNCTIONS;
use cj_ir::{Checked, Function};
use cj_reader::read_program;
use cj_tokens::{ParseError, Tokens};
use std::alloc::Global;

/// The word `events`, and the events.
#[tactic(auto, unfolding(crate::specs::Reading::history_at))]
fn read_listed(
    alloc: Global,
    tokens: &mut Tokens<'_>,
    functions: &[Function],
) -> Result<Events, ParseError>
    requires { length functions.now ≤ MAX_FUNCTIONS }
    ensures gives { Gives result (left tokens.new) (history_at functions.now (left tokens.old)) }
    ensures source { source tokens.new ≡ source tokens.old }
{
    let _word = tokens.take();
    read_events(alloc, tokens, functions)
}

/// The events that stand next, up to the end of the text, behind their program.
fn read_history(
    alloc: Global,
    tokens: &mut Tokens<'_>,
    checked: &Checked,
) -> Result<Events, ParseError>
    ensures meaning { (t : Tree history) (last : Lexeme) (rest : List Lexeme) → left tokens.old ≡ leaves history t ++ last ∷ rest → is_terminal End last ≡ true →
        Gives result (left tokens.new) (reads (history_offences checked.now t) (history_of checked.now t) (last ∷ rest)) }
    ensures source { source tokens.new ≡ source tokens.old }
{
    let functions = checked.program().functions.items();
    read_listed(alloc, tokens, functions)
}

/// The program and the events that the tokens are.
#[tactic(auto, using(crate::proofs::ReplayReads::has_functions))]
fn read_replay(alloc: Global, tokens: &mut Tokens<'_>) -> Result<(Checked, Events), ParseError>
    requires { IsSentence replay (left tokens.old) }
    ensures read { (tree : Tree replay) → leaves replay tree ≡ left tokens.old → Agrees result (replay_offences tree) (replay_of tree) }
    ensures source { source tokens.new ≡ source tokens.old }
    ensures fits { IfOk result (λ replay. FitsEvents replay.0 replay.1) }
{
    let checked = match read_program(alloc, tokens) {
        Ok(checked) => checked,
        Err(error) => return Err(error),
    };
    match read_history(alloc, tokens, &checked) {
        Ok(events) => Ok((checked, events)),
        Err(error) => Err(error),
    }
}

/// The replay that the bytes are: the functions of a program, the word `events`, and the events, in their order.
///
/// All that the events name exists: each function, with as many arguments as it has parameters; each run that makes
/// steps has begun before. There are at most 256 beginnings and 256 compilations; their limits, and the step counts,
/// come to at most 4,000,000 each. So the events can be played.
///
/// Refused: exactly where the bytes are no replay, with the line and the kind of their first offence. First come the
/// characters, the numbers and the syntax: the first token with which the tokens so far begin no replay. Where there
/// is no such token, it is the first token, from the left, that offends otherwise, and the highest of its offences.
#[tactic(auto, using(crate::proofs::ReplayReads::replay_meant, crate::proofs::ReplayReads::replay_offended, crate::proofs::ReplayReads::replay_only, crate::proofs::ReplayReads::replay_first, crate::proofs::Playing::fits_play))]
pub fn parse_replay(alloc: Global, bytes: &[u8]) -> Result<(Checked, Events), ParseError>
    ensures input { IfOk result (λ replay. ReadsReplay bytes.now (Ok replay)) }
    ensures fits { IfOk result (λ replay. FitsEvents replay.0 replay.1) }
    ensures playable { IfOk result (λ replay. CanPlay replay.0 replay.1) }
    ensures refused { IfErr result (IsReplayError bytes.now) }
    ensures only { IsOnlyReplay bytes.now result }
{
    let mut tokens = Tokens::of(bytes);
    match fits_replay(&tokens) {
        Ok(()) => read_replay(alloc, &mut tokens),
        Err(refused) => Err(ParseError::Refused(refused)),
    }
}
