//! The offences of single tokens.

ghost use Rattle.std.specs.Prelude.{◌≡◌, ◌+◌, ◌<◌, ◌≤◌, pos, length, position, slice_get, unsigned_abs, Some, None, IfSome, IfOk};
ghost use Rattle.cj_tokens.specs.Seen.{seen};
ghost use Rattle.cj_grammar.specs.Readers.{Found};
ghost use Rattle.cj_script.specs.Meaning.{is_named, function_named, id_named, out_of_range, limit_offences, function_offences, callee_offences};
ghost use Rattle.cj_script.specs.Reading.{judged};

use cj_grammar::refused;
use cj_ir::limits::{MAX_FUNCTIONS, MAX_NAME};
use cj_ir::{FunId, Function};
use cj_tokens::{Kind, Lexeme, ParseError};

/// The value of a number from `least` to `most`. Refused: any other number, with Range.
pub fn number_within(token: Lexeme<'_>, least: u32, most: u32) -> Result<u32, ParseError>
    ensures number { Found result (judged (out_of_range (pos least) (pos most) (seen token.entry)) (unsigned_abs (seen token.entry).number)) }
    ensures most { IfOk result (λ number. number ≤ most) }
{
    let number = token.number;
    if (least as i64) <= number && number <= most as i64 {
        Ok(number as u32)
    } else {
        Err(refused(token, Kind::Range))
    }
}

/// The limit of a run, where `spent` is the sum of the limits before it.
pub fn limit_behind(limit: Lexeme<'_>, spent: u32) -> Result<u32, ParseError>
    requires { spent ≤ 4000000 }
    ensures limit { Found result (judged (limit_offences (pos spent) (seen limit.entry)) (unsigned_abs (seen limit.entry).number)) }
    ensures within { IfOk result (λ limit. spent + limit ≤ 4000000) }
{
    if limit.number > 4_000_000 - spent as i64 {
        return Err(refused(limit, Kind::TooMany));
    }
    number_within(limit, 1, 1_000_000)
}

/// The place of the first function with that name.
pub fn place_named(functions: &[Function], name: Lexeme<'_>) -> Option<usize>
    ensures place { result ≡ position (is_named (seen name.entry)) functions.now }
    ensures within { IfSome result (λ k. k < length functions.now) }
{
    functions
        .iter()
        .position(|function| function.name.bytes() == name.text)
}

/// The function that a name names. Refused: a name of too many bytes with TooMany, one of no function with NoFunction.
#[tactic(auto, using(crate::proofs::Naming::named_judged, crate::proofs::Naming::unnamed_judged, crate::proofs::Naming::placed_named), unfolding(crate::specs::Meaning::function_offences))]
pub fn function_id(functions: &[Function], name: Lexeme<'_>) -> Result<FunId, ParseError>
    requires { length functions.now ≤ MAX_FUNCTIONS }
    ensures named { Found result (judged (function_offences functions.now (seen name.entry)) (id_named functions.now (seen name.entry))) }
    ensures within { IfOk result (λ id. id.0 < length functions.now) }
    ensures function { IfOk result (λ id. slice_get functions.now id.0 ≡ function_named functions.now (seen name.entry)) }
{
    if name.text.len() > MAX_NAME {
        return Err(refused(name, Kind::TooMany));
    }
    match place_named(functions, name) {
        Some(place) => Ok(FunId(place as u32)),
        None => Err(refused(name, Kind::NoFunction)),
    }
}

pub fn function_at(functions: &[Function], id: FunId) -> &Function
    requires { id.0 < length functions.now }
    ensures { slice_get functions.now id.0 ≡ Some result.now }
{
    &functions[id.0 as usize]
}

/// The function that a name names, if it has that many parameters.
#[tactic(auto, using(crate::proofs::Naming::callee_judged, crate::proofs::Naming::count_judged, crate::proofs::Naming::callee_unnamed))]
pub fn callee(functions: &[Function], count: usize, name: Lexeme<'_>) -> Result<FunId, ParseError>
    requires { length functions.now ≤ MAX_FUNCTIONS }
    ensures { Found result (judged (callee_offences functions.now count (seen name.entry)) (id_named functions.now (seen name.entry))) }
{
    let id = function_id(functions, name)?;
    if function_at(functions, id).params as usize != count {
        return Err(refused(name, Kind::Arguments));
    }
    Ok(id)
}
