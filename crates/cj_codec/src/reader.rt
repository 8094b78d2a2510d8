//! Words that are read one after the other.

ghost use Rattle.std.specs.Prelude.{◌≡◌, ◌<◌, ◌≤◌, Ok, Err, IfOk, IfErr};
ghost use Rattle.cj_codec.specs.declared.reader.ReadError.TheVariants as read_error;
ghost use Rattle.cj_spelling.specs.Formats.{word_at, below_at, at_most_at};
ghost use Rattle.cj_codec.specs.Reading.{value_at, function_at, label_at, base_label_at, reg_at, base_reg_at};
ghost use Rattle.cj_codec.specs.Answers.{left, Gives};

use cj_ir::limits::{MAX_FUNCTIONS, MAX_LABELS, MAX_REGS};
use cj_ir::{FunId, Label, NoMemory, Reg};
use thiserror::Error;

/// Why nothing was read.
#[derive(Clone, Copy, Debug, PartialEq, Eq, Error)]
pub enum ReadError {
    /// The words begin with no spelling of what was asked for.
    #[error("the words spell nothing that was asked for")]
    NoSpelling,
    #[error("there was no memory")]
    NoMemory,
}

/// How many registers and labels the code has whose words are read.
#[derive(Clone, Copy, Debug, PartialEq, Eq)]
pub struct Limits {
    pub regs: u32,
    pub labels: u32,
}

/// The words that are not read yet: `left` in contracts.
#[derive(Clone, Copy, Debug)]
pub struct WordReader<'a> {
    pub rest: &'a [u64],
}

/// Want of memory, as a reader answers it.
pub fn remembered<T: Drop>(outcome: Result<T, NoMemory>) -> Result<T, ReadError>
    ensures ok { IfOk outcome (λ value. result ≡ Ok value) }
    ensures err { IfErr outcome (λ error. result ≡ Err read_error.NoMemory) }
{
    match outcome {
        Ok(value) => Ok(value),
        Err(NoMemory) => Err(ReadError::NoMemory),
    }
}

impl<'a> WordReader<'a> {
    /// The next word.
    pub fn next(&mut self) -> Result<u64, ReadError>
        ensures word { Gives result (left self.new) (word_at (left self.old)) }
        ensures err { IfErr result (λ error. error ≡ read_error.NoSpelling) }
    {
        match self.rest.split_first() {
            None => Err(ReadError::NoSpelling),
            Some((word, rest)) => {
                self.rest = rest;
                Ok(*word)
            }
        }
    }

    /// The next word, which is below a bound.
    pub fn below(&mut self, bound: u32) -> Result<u32, ReadError>
        ensures word { Gives result (left self.new) (below_at bound (left self.old)) }
        ensures within { IfOk result (λ word. word < bound) }
        ensures err { IfErr result (λ error. error ≡ read_error.NoSpelling) }
    {
        let word = self.next()?;
        if word < bound as u64 {
            Ok(word as u32)
        } else {
            Err(ReadError::NoSpelling)
        }
    }

    /// The next word, which is at most that.
    pub fn at_most(&mut self, most: u32) -> Result<u32, ReadError>
        ensures word { Gives result (left self.new) (at_most_at most (left self.old)) }
        ensures within { IfOk result (λ word. word ≤ most) }
        ensures err { IfErr result (λ error. error ≡ read_error.NoSpelling) }
    {
        let word = self.next()?;
        if word <= most as u64 {
            Ok(word as u32)
        } else {
            Err(ReadError::NoSpelling)
        }
    }

    /// The next word, as the two's complement of a value.
    #[tactic(auto, unfolding(crate::specs::Reading::value_at))]
    pub fn value(&mut self) -> Result<i64, ReadError>
        ensures word { Gives result (left self.new) (value_at (left self.old)) }
        ensures err { IfErr result (λ error. error ≡ read_error.NoSpelling) }
    {
        let word = self.next()?;
        Ok(word.cast_signed())
    }

    /// A function's number.
    #[tactic(auto, unfolding(crate::specs::Reading::function_at))]
    pub fn function(&mut self) -> Result<FunId, ReadError>
        ensures word { Gives result (left self.new) (function_at (left self.old)) }
        ensures err { IfErr result (λ error. error ≡ read_error.NoSpelling) }
    {
        let number = self.below(MAX_FUNCTIONS as u32)?;
        Ok(FunId(number))
    }

    /// A label of the code.
    #[tactic(auto, unfolding(crate::specs::Reading::label_at))]
    pub fn label(&mut self, limits: Limits) -> Result<Label, ReadError>
        ensures word { Gives result (left self.new) (label_at limits (left self.old)) }
        ensures err { IfErr result (λ error. error ≡ read_error.NoSpelling) }
    {
        let number = self.below(limits.labels)?;
        Ok(Label(number))
    }

    /// A label of a function.
    #[tactic(auto, unfolding(crate::specs::Reading::base_label_at))]
    pub fn base_label(&mut self) -> Result<Label, ReadError>
        ensures word { Gives result (left self.new) (base_label_at (left self.old)) }
        ensures err { IfErr result (λ error. error ≡ read_error.NoSpelling) }
    {
        let number = self.below(MAX_LABELS as u32)?;
        Ok(Label(number))
    }

    /// A register of the code.
    #[tactic(auto, unfolding(crate::specs::Reading::reg_at))]
    pub fn reg(&mut self, limits: Limits) -> Result<Reg, ReadError>
        ensures word { Gives result (left self.new) (reg_at limits (left self.old)) }
        ensures err { IfErr result (λ error. error ≡ read_error.NoSpelling) }
    {
        let number = self.below(limits.regs)?;
        Ok(Reg(number))
    }

    /// A register of a function.
    #[tactic(auto, unfolding(crate::specs::Reading::base_reg_at))]
    pub fn base_reg(&mut self) -> Result<Reg, ReadError>
        ensures word { Gives result (left self.new) (base_reg_at (left self.old)) }
        ensures err { IfErr result (λ error. error ≡ read_error.NoSpelling) }
    {
        let number = self.below(MAX_REGS as u32)?;
        Ok(Reg(number))
    }
}
