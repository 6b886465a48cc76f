//! Names and their numbers.

ghost use Rattle.std.specs.Prelude.{◌≡◌, ◌<◌, ◌++◌, [], ◌∷◌, List, IfOk, IfErr, IfSome, OnOk, Some, None, is_some, length, map, not, if◌then◌else◌, slice_index_or};
ghost use Rattle.roster_bundle.specs.Token.{text_of};
ghost use Rattle.roster_bundle.specs.declared.token.Token.{Token};
ghost use Rattle.roster_instance.specs.Checking.{IsFirst};
ghost use Rattle.roster_instance.specs.Names.{find_name, found, names_of};
ghost use Rattle.roster_instance.specs.Refusals.{repeated_fault, unknown_fault};
ghost use Rattle.roster_instance.specs.Tables.{is_at};

use crate::fault::CaseFault;
use indexmap::IndexSet;
use roster_bundle::Token;
use std::alloc::{AllocError, Global};
use std::marker::Model;

/// Up to this number of names it is faster to compare all of them than to hash one.
const FEW: usize = 8;

/// Different names, numbered from 0 in the order in which they were added.
pub(crate) struct Names {
    names: IndexSet<Vec<u8>>,
}

// Written by hand, so that a function that drops names has one call to prove.
impl Drop for Names {
    fn drop(self) {
        let Names { names: _ } = self;
    }
}

impl Model for Names {
    ghost use Rattle.std.specs.Prelude.{ℕ, List, map};
    ghost use Rattle.roster_instance.specs.Names.{HaveTheirPlaces};

    ghost Value = { List (List ℕ) };

    ghost view = { λ n. map (λ name. name.items) n.names.keys };

    ghost invariant = { λ n. HaveTheirPlaces (map (λ name. name.items) n.names.keys) };
}

impl Names {
    /// No names yet, with capacity for `count` of them.
    pub(crate) fn with_capacity(alloc: Global, count: usize) -> Result<Names, AllocError>
        ensures { IfOk result (λ names. names ≡ []) }
    {
        Ok(Names {
            names: IndexSet::with_capacity(alloc, count)?,
        })
    }

    /// Adds a copy of a name at the end. If the name is there already, nothing changes and the result is
    /// false.
    fn add(&mut self, alloc: Global, name: &[u8]) -> Result<bool, AllocError>
        ensures taken { IfOk result (λ taken. taken ≡ not (is_some (find_name self.old name.now))) }
        ensures added { IfOk result (λ taken. self.new
            ≡ (if taken then self.old ++ name.now ∷ [] else self.old)) }
    {
        if self.names.contains(name) {
            return Ok(false);
        }
        self.names.insert(Vec::from_slice(alloc, name)?)?;
        Ok(true)
    }

    /// Adds the name of a token at the end, if it isn't there yet.
    pub(crate) fn add_token(
        &mut self,
        alloc: Global,
        source: &[u8],
        token: Token,
    ) -> Result<(), CaseFault>
        ensures added { OnOk result (self.new ≡ self.old ++ text_of source.now token ∷ []) }
        ensures none { (earlier : List Token) → self.old ≡ names_of source.now earlier →
            OnOk result (repeated_fault source.now earlier token ≡ []) }
        ensures first { (earlier : List Token) → self.old ≡ names_of source.now earlier →
            IfErr result (IsFirst (repeated_fault source.now earlier token)) }
    {
        if !self.add(alloc, token.text(source))? {
            return Err(CaseFault::Repeated { line: token.line });
        }
        Ok(())
    }

    pub(crate) fn len(&self) -> usize
        ensures { result ≡ length self.now }
    {
        self.names.len()
    }

    /// The number of a name.
    pub(crate) fn find(&self, name: &[u8]) -> Option<usize>
        ensures number { result ≡ find_name self.now name.now }
        ensures within { IfSome result (λ number. number < length self.now) }
    {
        if self.names.len() <= FEW {
            return number_among(self.names.as_slice(), name);
        }
        self.names.get_index_of(name)
    }

    /// Whether a name has this number.
    fn is_at(&self, number: usize, name: &[u8]) -> bool
        ensures { result ≡ is_at number (find_name self.now name.now) }
    {
        let names = self.names.as_slice();
        match names.get(number) {
            Some(own) => name == own.as_slice(),
            None => false,
        }
    }

    /// The number of a name. It tries two numbers before all others: `near`, and the one after it.
    fn find_near(&self, name: &[u8], near: usize) -> Option<usize>
        ensures number { result ≡ find_name self.now name.now }
        ensures within { IfSome result (λ number. number < length self.now) }
    {
        if self.is_at(near, name) {
            return Some(near);
        }
        let next = near.wrapping_add(1);
        if self.is_at(next, name) {
            return Some(next);
        }
        self.find(name)
    }

    /// The name with a number.
    pub(crate) fn name(&self, number: usize) -> &[u8]
        requires { number < length self.now }
        ensures { result.now ≡ slice_index_or self.now number [] }
    {
        self.names.as_slice()[number].as_slice()
    }

    /// The number of a token's name.
    pub(crate) fn number(&self, source: &[u8], token: Token) -> Result<usize, CaseFault>
        ensures number { IfOk result (λ number. found source.now self.now token ≡ Some number) }
        ensures within { IfOk result (λ number. number < length self.now) }
        ensures none { OnOk result (unknown_fault source.now self.now token ≡ []) }
        ensures first { IfErr result (λ f. unknown_fault source.now self.now token ≡ f ∷ []) }
    {
        match self.find(token.text(source)) {
            Some(number) => Ok(number),
            None => Err(CaseFault::Unknown { line: token.line }),
        }
    }

    /// The number of a token's name, which is found sooner if it is `near` or the next one. The lines of one
    /// nurse are mostly together, and the nurses in the order of their numbers.
    pub(crate) fn number_near(
        &self,
        source: &[u8],
        token: Token,
        near: usize,
    ) -> Result<usize, CaseFault>
        ensures number { IfOk result (λ number. found source.now self.now token ≡ Some number) }
        ensures within { IfOk result (λ number. number < length self.now) }
        ensures none { OnOk result (unknown_fault source.now self.now token ≡ []) }
        ensures first { IfErr result (λ f. unknown_fault source.now self.now token ≡ f ∷ []) }
    {
        match self.find_near(token.text(source), near) {
            Some(number) => Ok(number),
            None => Err(CaseFault::Unknown { line: token.line }),
        }
    }
}

/// The number of the first of these names that is equal to this one.
fn number_among(names: &[Vec<u8>], name: &[u8]) -> Option<usize>
    ensures { result ≡ find_name (map (λ own. own.items) names.now) name.now }
{
    for number in 0..names.len() {
        if name == names[number].as_slice() {
            return Some(number);
        }
    }
    None
}
