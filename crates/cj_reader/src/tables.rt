//! The lines of a function by their numbers, and the functions of a text by their names.

ghost use Rattle.std.specs.Prelude.{◌≡◌, ℕ, ℤ, List, [], ◌∷◌, ◌++◌, OnOk, IfErr};
ghost use Rattle.std.specs.Ordering.{int_eq};
ghost use Rattle.std.specs.Str.{bytes_eq};
ghost use Rattle.cj_tokens.specs.declared.refusal.ParseError.TheVariants as parse;
ghost use Rattle.cj_reader.specs.Scopes.{Head};
ghost use Rattle.cj_reader.specs.Known.{place_in, function_in, first_of, ListsLines, ListsFunctions};

use crate::memory::one_more;
use crate::scope::{Callee, Functions, Labels};
use cj_ir::FunId;
use cj_tokens::ParseError;
use indexmap::IndexMap;
use std::alloc::Global;

impl Labels {
    /// No lines.
    pub fn new(alloc: Global) -> Labels
        ensures { ListsLines [] result }
    {
        Labels {
            places: IndexMap::new(alloc),
            count: 0,
        }
    }

    /// The place of the first line with a number.
    pub fn place(&self, number: i64) -> Option<u32>
        ensures { result ≡ place_in self.now number }
    {
        self.places.get(&number).copied()
    }

    // Keeps the place of the next line for its number, unless an earlier line has that.
    fn keep_first(&mut self, number: i64) -> Result<(), ParseError>
        ensures kept { OnOk result ((n : ℤ) → place_in self.new n ≡ first_of (place_in self.old n) (int_eq number n) self.old.count) }
        ensures count { self.new.count ≡ self.old.count }
        ensures err { IfErr result (λ error. error ≡ parse.NoMemory) }
    {
        if self.place(number).is_some() {
            return Ok(());
        }
        self.places.insert(number, self.count)?;
        Ok(())
    }

    /// Adds a line with a number.
    #[tactic(auto, using(crate::proofs::Listings::lists_lines))]
    pub fn note(&mut self, number: i64) -> Result<(), ParseError>
        ensures listed { OnOk result ((numbers : List ℤ) → ListsLines numbers self.old → ListsLines (numbers ++ number ∷ []) self.new) }
        ensures err { IfErr result (λ error. error ≡ parse.NoMemory) }
    {
        let next = one_more(self.count)?;
        self.keep_first(number)?;
        self.count = next;
        Ok(())
    }
}

impl<'a> Functions<'a> {
    /// No functions.
    pub fn new(alloc: Global) -> Functions<'a>
        ensures { ListsFunctions [] result }
    {
        Functions {
            callees: IndexMap::new(alloc),
            count: 0,
        }
    }

    /// The first function with a name.
    pub fn callee(&self, name: &[u8]) -> Option<Callee>
        ensures { result ≡ function_in self.now name.now }
    {
        self.callees.get(name).copied()
    }

    // Keeps the next function for its name, unless an earlier one has that.
    fn keep_first(&mut self, name: &'a [u8], params: u32) -> Result<(), ParseError>
        ensures kept { OnOk result ((n : List ℕ) → function_in self.new n ≡ first_of (function_in self.old n) (bytes_eq name.entry.now n) (record { function = record { 0 = self.old.count }; params = params })) }
        ensures count { self.new.count ≡ self.old.count }
        ensures err { IfErr result (λ error. error ≡ parse.NoMemory) }
    {
        if self.callee(name).is_some() {
            return Ok(());
        }
        let function = FunId(self.count);
        self.callees.insert(name, Callee { function, params })?;
        Ok(())
    }

    /// Adds a function with a name and a number of parameters.
    #[tactic(auto, using(crate::proofs::Listings::lists_functions))]
    pub fn note(&mut self, name: &'a [u8], params: u32) -> Result<(), ParseError>
        ensures listed { OnOk result ((heads : List Head) → ListsFunctions heads self.old → ListsFunctions (heads ++ (record { name = name.entry.now; params = params }) ∷ []) self.new) }
        ensures err { IfErr result (λ error. error ≡ parse.NoMemory) }
    {
        let next = one_more(self.count)?;
        self.keep_first(name, params)?;
        self.count = next;
        Ok(())
    }
}
