// Class tables.
ghost use Rattle.std.specs.Prelude.{◌≡◌, ◌<◌, ◌≤◌, ◌==◌, ◌+◌, ◌++◌, ◌∷◌, [], All, Ok, Some, false};
ghost use Rattle.std.specs.Prelude.{length, map, slice_get, option_map, IfOk, IfErr, OnOk, OnErr};
ghost use Rattle.csv.specs.Records.{fields_of};
ghost use Rattle.ls_domain.specs.Meanings.{is_named};
ghost use Rattle.ls_theory.specs.{Row};
ghost use Rattle.ls_files.specs.ClassTables.{class_of, most_class_pupils, next_row};
ghost use Rattle.ls_class.specs.Faults.{IsClassFaultOf, IsRowFault};

use crate::ClassFault;
use crate::columns::columns_of;
use crate::marks::read_marks;
use csv::ByteRecord;
use indexmap::IndexMap;
use ls_cutting::Kind;
use ls_domain::{Domain, first_records};
use ls_set::{ItemList, ItemSet, PLACES};
use std::alloc::{AllocError, Global};
use std::marker::Model;

/// The most pupils of a class.
pub const MOST_CLASS_PUPILS: usize = 4_096;

/// A class: for each pupil, in the order of the table, its name and the items that it gets right.
/// Contracts see it as the list of these rows.
#[derive(Drop)]
pub struct ClassTable {
    pupils: IndexMap<String, ItemSet>,
}

impl Model for ClassTable {
    ghost use Rattle.std.specs.Prelude.{List, map, length, string_bytes, ◌≤◌};
    ghost use Rattle.ls_theory.specs.{Row};
    ghost use Rattle.ls_files.specs.ClassTables.{most_class_pupils};

    ghost Value = { List Row };

    ghost view = { λ t.
        map (λ e. record { name = string_bytes e.0; right = e.1 }) t.pupils.entries };

    ghost invariant = { λ t. length t.pupils.entries ≤ most_class_pupils };
}

impl ClassTable {
    /// The class of a table whose first record has each item's name once behind any first field,
    /// and whose further records have a pupil's name and then, for each column, `1` for right or
    /// `0` for wrong. One byte order mark at its front is passed over. The error is the first
    /// record that is of no such form, or has the name of an earlier pupil, or is one pupil too
    /// many; or memory ran out.
    pub fn from_csv(alloc: Global, domain: &Domain, bytes: &[u8]) -> Result<ClassTable, ClassFault>
        ensures read { IfOk result (λ t. class_of domain.now bytes.now ≡ Ok t) }
        ensures fault { IfErr result (IsClassFaultOf (class_of domain.now bytes.now)) }
    {
        let most = MOST_CLASS_PUPILS + 1;
        let records = first_records(alloc, bytes, most).map_err(ClassFault::Memory)?;
        let Some((header, pupils)) = records.split_first() else {
            return Err(ClassFault::BadClass { row: 1 });
        };
        let found = columns_of(alloc, domain, header).map_err(ClassFault::Memory)?;
        let Some(columns) = found else {
            return Err(ClassFault::BadClass { row: 1 });
        };
        let mut table = ClassTable {
            pupils: IndexMap::new(alloc),
        };
        for fields in pupils {
            table.add(alloc, &columns, fields)?;
        }
        Ok(table)
    }

    /// How many pupils there are.
    pub fn len(&self) -> usize
        ensures value { result ≡ length self.now }
        ensures few { result ≤ MOST_CLASS_PUPILS }
    {
        self.pupils.len()
    }

    /// Whether there is no pupil.
    pub fn is_empty(&self) -> bool
        ensures { result ≡ (length self.now == 0) }
    {
        self.pupils.is_empty()
    }

    /// The name of the pupil at the place, counted from 0, and the items that it gets right.
    pub fn row(&self, place: usize) -> (&str, ItemSet)
        requires { place < length self.now }
        ensures { slice_get self.now place
            ≡ Some (record { name = result.0.now; right = result.1 }) }
    {
        let (name, right) = self.pupils.get_index(place).unwrap();
        (name.as_str(), *right)
    }

    // Puts the row of the next pupil's record last.
    fn add(
        &mut self,
        alloc: Global,
        columns: &ItemList,
        fields: &ByteRecord,
    ) -> Result<(), ClassFault>
        requires { All (λ i. i < PLACES) columns.now }
        ensures ok { OnOk result (option_map (λ row. self.old ++ row ∷ [])
            (next_row columns.now self.old (fields_of fields.now)) ≡ Some self.new) }
        ensures fault { IfErr result (IsRowFault
            (next_row columns.now self.old (fields_of fields.now)) (length self.old + 2)) }
    {
        let bad = ClassFault::BadClass {
            row: self.len() as u32 + 2,
        };
        let Some(name) = fields.get(0) else {
            return Err(bad);
        };
        if !Kind::Name.takes(name) || self.len() == MOST_CLASS_PUPILS {
            return Err(bad);
        }
        let name = str::from_utf8(name).unwrap();
        if self.pupils.contains_key(name) {
            return Err(bad);
        }
        let Some(right) = read_marks(columns.as_slice(), fields) else {
            return Err(bad);
        };
        self.push(alloc, name, right).map_err(ClassFault::Memory)
    }

    // Puts the row of a new pupil last.
    fn push(&mut self, alloc: Global, name: &str, right: ItemSet) -> Result<(), AllocError>
        requires new { is_named (map (λ row. row.name) self.old) name.now ≡ false }
        requires room { length self.old < most_class_pupils }
        ensures ok { OnOk result
            (self.new ≡ self.old ++ record { name = name.now; right = right } ∷ []) }
        ensures err { OnErr result (self.new ≡ self.old) }
    {
        let text = String::from_str(alloc, name)?;
        self.pupils.insert(text, right)?;
        Ok(())
    }
}
