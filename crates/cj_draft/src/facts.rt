//! Facts: what is known of a version's registers at a label.

use cj_ir::{Duplicate, NoMemory, Reg, Sequence};

/// The register has this value.
#[derive(Clone, Copy, Debug, PartialEq, Eq)]
pub struct Fact {
    pub reg: Reg,
    pub value: i64,
}

/// Facts in strictly increasing order of their registers.
pub type FactList = Sequence<Fact>;

#[derive(Debug, Drop)]
pub enum Facts {
    /// No run comes to the label.
    Unreached,
    Known(FactList),
}

/// Facts for each label.
pub type FactTable = Sequence<Facts>;

impl Duplicate for Fact {
    fn copy(&self) -> Result<Fact, NoMemory> {
        Ok(*self)
    }
}

impl Duplicate for Facts {
    fn copy(&self) -> Result<Facts, NoMemory> {
        match self {
            Facts::Unreached => Ok(Facts::Unreached),
            Facts::Known(facts) => Ok(Facts::Known(facts.copy()?)),
        }
    }
}
