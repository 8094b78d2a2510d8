//! The words of places: facts, backs and the whole.

ghost use Rattle.cj_spelling.specs.Spelling.{fact_words, facts_words, back_words, place_words};
ghost use Rattle.cj_spelling.specs.Values.{HasFactValue, HasFactsValues, HasBackValues, HasPlaceValues};

use crate::counts::added;
use crate::spelled::{Spelled, Words};
use cj_draft::{Back, Fact, Facts, Place};
use cj_ir::NoMemory;

impl Spelled for Fact {
    ghost words_of = { fact_words };

    ghost has_values = { HasFactValue };

    fn count(&self, so_far: u64) -> u64 {
        added(so_far, 2)
    }

    fn write(&self, out: &mut Words) -> Result<(), NoMemory> {
        self.reg.write(out)?;
        out.push(self.value.cast_unsigned())
    }
}

impl Spelled for Facts {
    ghost words_of = { facts_words };

    ghost has_values = { HasFactsValues };

    #[tactic(auto, using(crate::proofs::Capped::capped_more))]
    fn count(&self, so_far: u64) -> u64 {
        let so_far = added(so_far, 1);
        match self {
            Facts::Unreached => so_far,
            Facts::Known(facts) => facts.count(so_far),
        }
    }

    fn write(&self, out: &mut Words) -> Result<(), NoMemory> {
        match self {
            Facts::Unreached => out.push(0),
            Facts::Known(facts) => {
                out.push(1)?;
                facts.write(out)
            }
        }
    }
}

#[tactic(auto, using(crate::proofs::Capped::capped_more))]
impl Spelled for Back {
    ghost words_of = { back_words };

    ghost has_values = { HasBackValues };

    fn count(&self, so_far: u64) -> u64 {
        self.point.count(added(so_far, 1))
    }

    fn write(&self, out: &mut Words) -> Result<(), NoMemory> {
        out.push(self.turns as u64)?;
        self.point.write(out)
    }
}

#[tactic(auto, using(crate::proofs::Capped::capped_more))]
impl Spelled for Place {
    ghost words_of = { place_words };

    ghost has_values = { HasPlaceValues };

    fn count(&self, so_far: u64) -> u64 {
        let so_far = self.instr.count(so_far);
        let so_far = self.point.count(so_far);
        let so_far = self.facts.count(so_far);
        self.backs.count(so_far)
    }

    fn write(&self, out: &mut Words) -> Result<(), NoMemory> {
        self.instr.write(out)?;
        self.point.write(out)?;
        self.facts.write(out)?;
        self.backs.write(out)
    }
}
