// Names with numbers, put one after another.
ghost use Rattle.std.specs.Prelude.{◌≡◌, ◌<◌, ◌++◌, ◌∷◌, [], None, true, false, length, IfOk};
ghost use Rattle.std.specs.Prelude.{IfErr, IfSome, OnOk, OnErr, OnSome, Some};
ghost use Rattle.ls_domain.specs.Texts.{name_of};
ghost use Rattle.ls_domain.specs.Meanings.{is_named, number_of};
ghost use Rattle.ls_domain.specs.Domains.{AreNames, IsNameFault, is_name, name_fault};

use crate::DomainFault;
use indexmap::IndexSet;
use ls_cutting::Kind;
use ls_set::PLACES;
use std::alloc::{AllocError, Global};
use std::marker::Model;

/// How many places for hints there are.
const HINTS: usize = 2_048;

/// Distinct names, in the order in which they were put.
// At the place of a name there is a hint, which is a number: mostly the name's own. The name that
// has the number is compared, so a wrong hint costs a look into the set and no more.
#[derive(Drop)]
pub(crate) struct Names {
    alloc: Global,
    set: IndexSet<String>,
    hints: Vec<u16>,
}

impl Model for Names {
    ghost use Rattle.std.specs.Prelude.{string_bytes, List, ℕ, map};
    ghost use Rattle.ls_domain.specs.Domains.{AreNames};

    ghost Value = { List (List ℕ) };

    ghost view = { λ n. map string_bytes n.set.keys };

    ghost invariant = { λ n. AreNames (map string_bytes n.set.keys) };
}

// Where the hint of a name is.
fn place_of(name: &[u8]) -> usize
    ensures { result < HINTS }
{
    let sum = name.iter().fold(0u32, |sum, byte| {
        sum.wrapping_mul(31).wrapping_add(u32::from(*byte))
    });
    sum as usize % HINTS
}

impl Names {
    // No name. It takes no memory.
    pub(crate) fn new(alloc: Global) -> Self
        ensures { result ≡ [] }
    {
        Names {
            alloc,
            set: IndexSet::new(alloc),
            hints: Vec::new(alloc),
        }
    }

    // How many names there are.
    pub(crate) fn len(&self) -> u32
        ensures value { result ≡ length self.now }
        ensures names { AreNames self.now }
    {
        self.set.len() as u32
    }

    // The number of the name, which is given as its bytes.
    pub(crate) fn number(&self, name: &[u8]) -> Option<u32>
        ensures value { result ≡ number_of self.now name.now }
        ensures name { OnSome result (is_name name.now ≡ true) }
        ensures within { IfSome result (λ i. i < length self.now) }
        ensures place { IfSome result (λ i. i < PLACES) }
    {
        if let Some(i) = self.hinted(name) {
            return Some(i);
        }
        match str::from_utf8(name) {
            Ok(text) => self.sought(text),
            Err(_) => None,
        }
    }

    // The number of the name, where its hint is right.
    fn hinted(&self, name: &[u8]) -> Option<u32>
        ensures value { IfSome result (λ i. number_of self.now name.now ≡ Some i) }
        ensures names { AreNames self.now }
    {
        let hint = *self.hints.get(place_of(name))?;
        let hinted = self.set.get_index(usize::from(hint))?;
        if hinted.as_bytes() == name {
            Some(u32::from(hint))
        } else {
            None
        }
    }

    // The number of the name, by a look into the set.
    fn sought(&self, name: &str) -> Option<u32>
        ensures value { result ≡ number_of self.now name.now }
        ensures within { IfSome result (λ i. i < length self.now) }
        ensures place { IfSome result (λ i. i < PLACES) }
    {
        self.set.get_index_of(name).map(|i| i as u32)
    }

    // The name with the number, which is empty where no name has it.
    pub(crate) fn name(&self, i: u32) -> &str
        ensures { result.now ≡ name_of self.now i }
    {
        match self.set.get_index(i as usize) {
            Some(name) => name.as_str(),
            None => "",
        }
    }

    // The same names once more, without hints.
    pub(crate) fn copy(&self) -> Result<Names, AllocError>
        ensures { IfOk result (λ n. n ≡ self.now) }
    {
        let set = self.set.clone()?;
        Ok(Names {
            alloc: self.alloc,
            set,
            hints: Vec::new(self.alloc),
        })
    }

    // Puts a name last, which is new.
    fn push(&mut self, name: &str) -> Result<(), AllocError>
        requires name { is_name name.now ≡ true }
        requires new { is_named self.old name.now ≡ false }
        requires room { length self.old < PLACES }
        ensures ok { OnOk result (self.new ≡ self.old ++ name.now ∷ []) }
        ensures err { OnErr result (self.new ≡ self.old) }
    {
        let text = String::from_str(self.alloc, name)?;
        self.hints.resize(HINTS, 0)?;
        let number = self.len() as u16;
        self.set.insert(text)?;
        self.hints[place_of(name.as_bytes())] = number;
        Ok(())
    }

    // Puts the name of the next row last.
    pub(crate) fn add(&mut self, name: &[u8]) -> Result<(), DomainFault>
        ensures sound { OnOk result (name_fault self.old name.now ≡ None) }
        ensures ok { OnOk result (self.new ≡ self.old ++ name.now ∷ []) }
        ensures fault { IfErr result (IsNameFault (name_fault self.old name.now)) }
    {
        let row = self.len() + 1;
        if !Kind::Name.takes(name) {
            return Err(DomainFault::BadName { row });
        }
        let name = str::from_utf8(name).unwrap();
        if let Some(first) = self.sought(name) {
            return Err(DomainFault::Repeat {
                row,
                first: first + 1,
            });
        }
        if row > PLACES {
            return Err(DomainFault::TooMany);
        }
        self.push(name).map_err(DomainFault::Memory)
    }
}
