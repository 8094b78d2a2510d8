//! Places, read from their words: facts, backs and the whole.

ghost use Rattle.std.specs.Prelude.{◌≡◌, IfErr};
ghost use Rattle.cj_codec.specs.declared.reader.ReadError.TheVariants as read_error;
ghost use Rattle.cj_codec.specs.Reading.{fact_at, rise_from, known_at, facts_at, back_at, place_at};
ghost use Rattle.cj_codec.specs.Answers.{left, Gives};

use crate::instructions::read_instr;
use crate::items::{Item, read_counted};
use crate::points::read_point;
use crate::reader::{Limits, ReadError, WordReader};
use cj_draft::limits::MAX_BACK;
use cj_draft::{Back, Fact, FactList, Facts, Place};
use std::alloc::Global;

impl Item for Fact {
    ghost reading = { fact_at };

    #[tactic(auto, unfolding(crate::specs::Reading::fact_at))]
    fn read(_alloc: Global, words: &mut WordReader<'_>, limits: Limits) -> Result<Fact, ReadError>
        ensures reads { Gives result (left words.new) (fact_at limits (left words.old)) }
        ensures err { IfErr result (λ error. error ≡ read_error.NoSpelling) }
    {
        let reg = words.reg(limits)?;
        let value = words.value()?;
        Ok(Fact { reg, value })
    }
}

// Whether the registers are strictly increasing.
fn are_increasing(facts: &[Fact]) -> bool
    ensures { result ≡ rise_from 0 facts.now }
{
    let mut least: u64 = 0;
    'each: for fact in facts {
        if (fact.reg.0 as u64) < least {
            return false;
        }
        least = fact.reg.0 as u64 + 1;
    }
    true
}

// The facts of a label that is reached.
#[tactic(auto, unfolding(crate::specs::Reading::known_at))]
fn read_known(
    alloc: Global,
    words: &mut WordReader<'_>,
    limits: Limits,
) -> Result<FactList, ReadError>
    ensures { Gives result (left words.new) (known_at limits (left words.old)) }
{
    let facts: FactList = read_counted(alloc, words, limits)?;
    if are_increasing(facts.items()) {
        Ok(facts)
    } else {
        Err(ReadError::NoSpelling)
    }
}

// The facts of a label.
#[tactic(auto, unfolding(crate::specs::Reading::facts_at))]
fn read_facts(alloc: Global, words: &mut WordReader<'_>, limits: Limits) -> Result<Facts, ReadError>
    ensures { Gives result (left words.new) (facts_at limits (left words.old)) }
{
    match words.next()? {
        0 => Ok(Facts::Unreached),
        1 => {
            let facts = read_known(alloc, words, limits)?;
            Ok(Facts::Known(facts))
        }
        _ => Err(ReadError::NoSpelling),
    }
}

impl Item for Back {
    ghost reading = { back_at };

    #[tactic(auto, unfolding(crate::specs::Reading::back_at))]
    fn read(alloc: Global, words: &mut WordReader<'_>, limits: Limits) -> Result<Back, ReadError> {
        let turns = words.at_most(MAX_BACK)?;
        let point = read_point(alloc, words, limits)?;
        Ok(Back { turns, point })
    }
}

impl Item for Place {
    ghost reading = { place_at };

    #[tactic(auto, unfolding(crate::specs::Reading::place_at))]
    fn read(alloc: Global, words: &mut WordReader<'_>, limits: Limits) -> Result<Place, ReadError> {
        let instr = read_instr(alloc, words, limits)?;
        let point = read_point(alloc, words, limits)?;
        let facts = read_facts(alloc, words, limits)?;
        let backs = read_counted(alloc, words, limits)?;
        Ok(Place {
            instr,
            point,
            facts,
            backs,
        })
    }
}
