// The text of a surmise function.
ghost use Rattle.std.specs.Prelude.{◌≡◌, length, IfOk, OnOk};
ghost use Rattle.serde_json.specs.View.{view, members_view};
ghost use Rattle.serde_json.specs.Data.{put};
ghost use Rattle.ls_set.specs.{IsWithin, full};
ghost use Rattle.ls_laws.specs.Spans.{AreOn};
ghost use Rattle.ls_files.specs.SurmiseFiles.{clause_value, list_value, members_from, surmise_text};

use crate::Surmise;
use ls_domain::Domain;
use ls_set::ItemSet;
use serde_json::{Map, Value};
use std::alloc::{AllocError, Global};

// The names of a clause's items, in the order of items.
fn clause_value(alloc: Global, d: &Domain, clause: ItemSet) -> Result<Value, AllocError>
    requires { IsWithin clause (full (length d.now)) }
    ensures { IfOk result (λ v. view v ≡ clause_value d.now clause) }
{
    let mut names = Vec::new(alloc);
    for item in clause.items() {
        let name = String::from_str(alloc, d.name(item))?;
        names.push(Value::String(name))?;
    }
    Ok(Value::Array(names))
}

// The clauses of an item, in their order.
fn clauses_value(alloc: Global, d: &Domain, clauses: &[ItemSet]) -> Result<Value, AllocError>
    requires { AreOn (length d.now) clauses.now }
    ensures { IfOk result (λ v. view v ≡ list_value (clause_value d.now) clauses.now) }
{
    let mut values = Vec::new(alloc);
    for clause in clauses {
        values.push(clause_value(alloc, d, *clause)?)?;
    }
    Ok(Value::Array(values))
}

// Puts a value at a key.
fn insert_member(
    alloc: Global,
    map: &mut Map<String, Value>,
    key: &str,
    value: Value,
) -> Result<(), AllocError>
    ensures { OnOk result (
        members_view map.new.entries ≡ put key.now (view value) (members_view map.old.entries)) }
{
    map.insert(String::from_str(alloc, key)?, value)?;
    Ok(())
}

impl Surmise {
    /// The text of the surmise function: a JSON object without spaces, which has under each item's
    /// name its clauses in their order, each an array of the names of its items, in the order of
    /// items. The names stand in the order of their bytes. The text is read as the same function
    /// (`surmise_functions_are_read_back`). The error is want of memory.
    pub fn print(&self, d: &Domain) -> Result<Vec<u8>, AllocError>
        requires { length d.now ≡ self.now.item_count }
        ensures { IfOk result (λ v. v.items ≡ surmise_text d.now self.now.clauses) }
    {
        let members = self.members(d)?;
        Value::Object(members).to_vec(self.alloc)
    }

    // The clauses under their items' names. The last item comes first.
    fn members(&self, d: &Domain) -> Result<Map<String, Value>, AllocError>
        requires { length d.now ≡ self.now.item_count }
        ensures { IfOk result (λ m.
            members_view m.entries ≡ members_from d.now d.now self.now.clauses) }
    {
        let mut members = Map::new(self.alloc);
        for q in (0..d.count()).rev() {
            let clauses = clauses_value(self.alloc, d, self.clauses(q))?;
            insert_member(self.alloc, &mut members, d.name(q), clauses)?;
        }
        Ok(members)
    }
}
