//! The offences of single tokens.

ghost use Rattle.std.specs.Prelude.{◌+◌, ◌≤◌, pos, unsigned_abs, IfOk};
ghost use Rattle.cj_tokens.specs.Seen.{seen};
ghost use Rattle.cj_grammar.specs.Readers.{Found};
ghost use Rattle.cj_script.specs.Meaning.{out_of_range};
ghost use Rattle.cj_script.specs.Reading.{judged};
ghost use Rattle.cj_ir.specs.declared.language.Guard.TheVariants.{Never};
ghost use Rattle.cj_events.specs.Meaning.{label_of, label_offences, listed_offences, register_of, ninth_offences, register_offences, run_offences, count_offences};

use crate::limits::MAX_LISTED;
use cj_grammar::refused;
use cj_ir::{Guard, Label, Reg};
use cj_script::number_within;
use cj_tokens::{Kind, Lexeme, ParseError};

/// A label of a draft.
pub fn draft_label(token: Lexeme<'_>) -> Result<Label, ParseError>
    ensures { Found result (judged (label_offences (seen token.entry)) (label_of (seen token.entry))) }
{
    let number = number_within(token, 0, 511)?;
    Ok(Label(number))
}

/// A label of a list, behind so many others.
pub fn listed_label(earlier: usize, token: Lexeme<'_>) -> Result<Label, ParseError>
    ensures { Found result (judged (listed_offences earlier (seen token.entry)) (label_of (seen token.entry))) }
{
    if earlier >= MAX_LISTED {
        return Err(refused(token, Kind::TooMany));
    }
    draft_label(token)
}

fn register(token: Lexeme<'_>) -> Result<Reg, ParseError>
    ensures { Found result (judged (out_of_range (pos 0) (pos 127) (seen token.entry)) (register_of (seen token.entry))) }
{
    let number = number_within(token, 0, 127)?;
    Ok(Reg(number))
}

/// The register of a guard behind so many others.
pub fn guarded_register(earlier: usize, token: Lexeme<'_>) -> Result<Reg, ParseError>
    ensures { Found result (judged (register_offences earlier (seen token.entry)) (register_of (seen token.entry))) }
{
    if earlier >= 8 {
        return Err(refused(token, Kind::TooMany));
    }
    register(token)
}

/// The guard `never` behind so many others.
pub fn never_guard(earlier: usize, token: Lexeme<'_>) -> Result<Guard, ParseError>
    ensures { Found result (judged (ninth_offences earlier (seen token.entry)) Never) }
{
    if earlier >= 8 {
        return Err(refused(token, Kind::TooMany));
    }
    Ok(Guard::Never)
}

/// The number of a run, where so many have begun.
pub fn run_number(begun: u32, token: Lexeme<'_>) -> Result<u32, ParseError>
    ensures { Found result (judged (run_offences begun (seen token.entry)) (unsigned_abs (seen token.entry).number)) }
{
    number_within(token, 1, begun)
}

/// A step count behind others that come to this sum.
pub fn step_count(spent: u32, token: Lexeme<'_>) -> Result<u32, ParseError>
    requires { spent ≤ 4000000 }
    ensures count { Found result (judged (count_offences spent (seen token.entry)) (unsigned_abs (seen token.entry).number)) }
    ensures within { IfOk result (λ count. spent + count ≤ 4000000) }
{
    if token.number > 4_000_000 - spent as i64 {
        return Err(refused(token, Kind::TooMany));
    }
    number_within(token, 1, 1_000_000)
}
