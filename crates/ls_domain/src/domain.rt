// Domains.
ghost use Rattle.std.specs.Prelude.{◌≡◌, ◌<◌, ◌≤◌, ◌++◌, None, Some, Ok, length, IfOk, IfErr};
ghost use Rattle.std.specs.Prelude.{IfSome, OnOk, OnErr, OnSome, true};
ghost use Rattle.std.specs.Io.{StartsWith};
ghost use Rattle.ls_set.specs.{IsWithin, full};
ghost use Rattle.ls_domain.specs.Texts.{name_of, joined_names, set_text};
ghost use Rattle.ls_domain.specs.Meanings.{number_of, items_of, first_unnamed};
ghost use Rattle.ls_domain.specs.Domains.{IsDomain, IsDomainFault, is_name, names_of_words};
ghost use Rattle.ls_domain.specs.Domains.{names_of_table};

use crate::names::Names;
use crate::table::{first_field, first_records};
use crate::{DomainFault, UnknownAt};
use ls_cutting::WordList;
use ls_set::{ItemSet, PLACES};
use std::alloc::{AllocError, Global};
use std::marker::Model;

/// The names of the items. Item `i` has the name at index `i`. Contracts see it as the list of
/// names, each as its bytes.
#[derive(Drop)]
pub struct Domain {
    names: Names,
}

impl Model for Domain {
    ghost use Rattle.std.specs.Prelude.{List, ℕ, length, ◌<◌};

    ghost Value = { List (List ℕ) };

    ghost view = { λ d. d.names };

    ghost invariant = { λ d. 0 < length d.names };
}

impl Domain {
    /// The domain whose names are the words, in their order. Each word is a row. The error is that
    /// of the first row that has one: it is no name, or it is that of an earlier row, or there are
    /// too many; or memory ran out.
    pub fn from_names(alloc: Global, names: &WordList) -> Result<Domain, DomainFault>
        ensures read { IfOk result (λ d. names_of_words names.now ≡ Ok d) }
        ensures fault { IfErr result (IsDomainFault (names_of_words names.now)) }
    {
        if names.is_empty() {
            return Err(DomainFault::NoItems);
        }
        let mut list = Names::new(alloc);
        for word in names.as_slice() {
            list.add(word.as_str().as_bytes())?;
        }
        Ok(Domain { names: list })
    }

    /// The domain whose names are the first fields of a table's records, in their order. The table
    /// has no header row, and one byte order mark at its front is passed over. The error is that of
    /// the first record that has one: it has another number of fields than the first, or its first
    /// field is no name, or is that of an earlier record, or there are too many; or memory ran out.
    pub fn from_csv(alloc: Global, bytes: &[u8]) -> Result<Domain, DomainFault>
        ensures read { IfOk result (λ d. names_of_table bytes.now ≡ Ok d) }
        ensures fault { IfErr result (IsDomainFault (names_of_table bytes.now)) }
    {
        let records = first_records(alloc, bytes, PLACES as usize).map_err(DomainFault::Memory)?;
        let Some(first) = records.first() else {
            return Err(DomainFault::NoItems);
        };
        let mut list = Names::new(alloc);
        for record in &records {
            if record.len() != first.len() {
                return Err(DomainFault::BadCsv {
                    row: list.len() + 1,
                });
            }
            list.add(first_field(record))?;
        }
        Ok(Domain { names: list })
    }

    /// How many items there are.
    pub fn count(&self) -> u32
        ensures value { result ≡ length self.now }
        ensures some { 1 ≤ result }
        ensures few { result ≤ PLACES }
        ensures domain { IsDomain self.now }
    {
        self.names.len()
    }

    /// The item that has the name, or `None` where no item has it.
    pub fn number(&self, name: &str) -> Option<u32>
        ensures value { result ≡ number_of self.now name.now }
        ensures within { IfSome result (λ i. i < length self.now) }
        ensures place { IfSome result (λ i. i < PLACES) }
    {
        self.names.number(name.as_bytes())
    }

    /// The item whose name is the word, or `None` where no item's is. The word may be any bytes.
    pub fn item_named(&self, word: &[u8]) -> Option<u32>
        ensures value { result ≡ number_of self.now word.now }
        ensures name { OnSome result (is_name word.now ≡ true) }
        ensures within { IfSome result (λ i. i < length self.now) }
        ensures place { IfSome result (λ i. i < PLACES) }
    {
        self.names.number(word)
    }

    /// The name of item `i`, which is empty where there is no such item.
    pub fn name(&self, i: u32) -> &str
        ensures { result.now ≡ name_of self.now i }
    {
        self.names.name(i)
    }

    /// The same domain once more.
    pub fn copy(&self) -> Result<Domain, AllocError>
        ensures { IfOk result (λ d. d ≡ self.now) }
    {
        Ok(Domain {
            names: self.names.copy()?,
        })
    }

    /// The set of the items that the words name, or the first word that names no item.
    pub fn read_set(&self, words: &WordList) -> Result<ItemSet, UnknownAt>
        ensures set { IfOk result (λ s. s ≡ items_of self.now words.now) }
        ensures items { IfOk result (λ s. IsWithin s (full (length self.now))) }
        ensures named { OnOk result (first_unnamed self.now words.now ≡ None) }
        ensures unknown { IfErr result (λ u. first_unnamed self.now words.now ≡ Some u.index) }
    {
        let mut set = ItemSet::empty();
        for (index, word) in words.as_slice().iter().enumerate() {
            let Some(item) = self.number(word.as_str()) else {
                return Err(UnknownAt { index });
            };
            set = set.with(item);
        }
        Ok(set)
    }

    /// Appends the names of those items that the set has, in the order of items, joined by single
    /// spaces. Where memory runs out the bytes are as they were.
    pub fn push_names(&self, s: ItemSet, out: &mut Vec<u8>) -> Result<(), AllocError>
        ensures ok { OnOk result (out.new.items ≡ out.old.items ++ joined_names self.now s) }
        ensures err { OnErr result (out.new.items ≡ out.old.items) }
    {
        let start = out.len();
        let pushed = self.append_names(s, out);
        if pushed.is_err() {
            out.truncate(start);
        }
        pushed
    }

    /// Appends the set: its names within braces, as `push_names` does. Where memory
    /// runs out the bytes are as they were.
    pub fn print_set(&self, s: ItemSet, out: &mut Vec<u8>) -> Result<(), AllocError>
        ensures ok { OnOk result (out.new.items ≡ out.old.items ++ set_text self.now s) }
        ensures err { OnErr result (out.new.items ≡ out.old.items) }
    {
        let start = out.len();
        let printed = self.append_set(s, out);
        if printed.is_err() {
            out.truncate(start);
        }
        printed
    }

    // Appends the names; where memory runs out, those that there was room for.
    fn append_names(&self, s: ItemSet, out: &mut Vec<u8>) -> Result<(), AllocError>
        ensures ok { OnOk result (out.new.items ≡ out.old.items ++ joined_names self.now s) }
        ensures kept { StartsWith out.new.items out.old.items }
    {
        let mut gap: &[u8] = b"";
        for item in s.meet(ItemSet::full(self.count())).items() {
            out.extend_from_slice(gap)?;
            out.extend_from_slice(self.name(item).as_bytes())?;
            gap = b" ";
        }
        Ok(())
    }

    // Appends the set; where memory runs out, what there was room for.
    fn append_set(&self, s: ItemSet, out: &mut Vec<u8>) -> Result<(), AllocError>
        ensures ok { OnOk result (out.new.items ≡ out.old.items ++ set_text self.now s) }
        ensures kept { StartsWith out.new.items out.old.items }
    {
        out.push(b'{')?;
        self.append_names(s, out)?;
        out.push(b'}')?;
        Ok(())
    }
}
