// The clauses of a surmise file, as they stand.
ghost use Rattle.std.specs.Prelude.{◌≡◌, ◌<◌, ◌&&◌, Ok, is_some, length, option_map};
ghost use Rattle.std.specs.Prelude.{option_and_then, IfOk, IfErr, IfSome};
ghost use Rattle.serde_json.specs.View.{view};
ghost use Rattle.serde_json.specs.Find.{as_str};
ghost use Rattle.ls_domain.specs.Meanings.{is_named, number_of};
ghost use Rattle.ls_files.specs.SurmiseFiles.{read_list, read_clauses, read_table};
ghost use Rattle.ls_files.specs.SurmiseFiles.{value_of, IsSurmiseFaultOf};
ghost use Rattle.ls_surmise.specs.Reading.{read_clause, read_sets, is_known, read_own};
ghost use Rattle.ls_surmise.specs.Reading.{read_all, clauses_read};

use ls_domain::Domain;
use ls_set::{ItemSet, PLACES, SetList};
use ls_theory::SurmiseFault;
use serde_json::Value;
use std::alloc::{AllocError, Global};

// The value that the bytes are, if they are one.
fn value_of(alloc: Global, bytes: &[u8]) -> Result<Option<Value>, AllocError>
    ensures { IfOk result (λ found. option_map view found ≡ value_of bytes.now) }
{
    match Value::from_slice(alloc, bytes) {
        Ok(value) => Ok(Some(value)),
        Err(e) => {
            if e.is_memory() {
                Err(AllocError)
            } else {
                Ok(None)
            }
        }
    }
}

// ---- the form

// Whether the value is an array of texts.
fn is_text_list(value: &Value) -> bool
    ensures { result ≡ is_some (read_list as_str (view value.now)) }
{
    let Some(entries) = value.as_array() else {
        return false;
    };
    for entry in entries {
        if entry.as_str().is_none() {
            return false;
        }
    }
    true
}

// Whether the value is an array of arrays of texts.
fn is_clause_list(value: &Value) -> bool
    ensures { result ≡ is_some (read_clauses (view value.now)) }
{
    let Some(entries) = value.as_array() else {
        return false;
    };
    for entry in entries {
        if !is_text_list(entry) {
            return false;
        }
    }
    true
}

// Whether the value is an object of such arrays.
fn is_table(value: &Value) -> bool
    ensures { result ≡ is_some (read_table (view value.now)) }
{
    let Some(members) = value.as_object() else {
        return false;
    };
    for (_key, member) in members {
        if !is_clause_list(member) {
            return false;
        }
    }
    true
}

// ---- the names

// The item whose name the value is.
fn item_of(d: &Domain, value: &Value) -> Option<u32>
    ensures value { result ≡ option_and_then (number_of d.now) (as_str (view value.now)) }
    ensures place { IfSome result (λ i. i < PLACES) }
{
    d.number(value.as_str()?)
}

// The set of an array of items' names.
fn read_clause(d: &Domain, value: &Value) -> Option<ItemSet>
    ensures { result ≡ read_clause d.now (view value.now) }
{
    let Some(entries) = value.as_array() else {
        return None;
    };
    let mut set = ItemSet::empty();
    for entry in entries {
        let Some(item) = item_of(d, entry) else {
            return None;
        };
        set = set.with(item);
    }
    Some(set)
}

// Whether the value is an array of such arrays.
fn are_known_clauses(d: &Domain, value: &Value) -> bool
    ensures { result ≡ is_some (read_sets d.now (view value.now)) }
{
    let Some(entries) = value.as_array() else {
        return false;
    };
    for entry in entries {
        if read_clause(d, entry).is_none() {
            return false;
        }
    }
    true
}

// Whether the key is an item's name, and the value such an array.
#[tactic(auto, using(crate::proofs::Names::number_named))]
fn is_known_row(d: &Domain, key: &str, value: &Value) -> bool
    ensures { result ≡ (is_named d.now key.now && is_some (read_sets d.now (view value.now))) }
{
    d.number(key).is_some() && are_known_clauses(d, value)
}

// Whether the value is an object of such rows.
fn is_known(d: &Domain, value: &Value) -> bool
    ensures { result ≡ is_known d.now (view value.now) }
{
    let Some(members) = value.as_object() else {
        return false;
    };
    for (key, member) in members {
        if !is_known_row(d, key.as_str(), member) {
            return false;
        }
    }
    true
}

// ---- the clauses

// The sets of an array of arrays of items' names.
fn read_sets(alloc: Global, d: &Domain, value: &Value) -> Result<Option<SetList>, AllocError>
    ensures { IfOk result (λ found. found ≡ read_sets d.now (view value.now)) }
{
    let Some(entries) = value.as_array() else {
        return Ok(None);
    };
    let mut sets = SetList::new(alloc);
    for entry in entries {
        let Some(set) = read_clause(d, entry) else {
            return Ok(None);
        };
        sets.push(set)?;
    }
    Ok(Some(sets))
}

// The clauses under the name of item `q`.
fn read_own(alloc: Global, d: &Domain, value: &Value, q: u32) -> Result<SetList, AllocError>
    requires { q < length d.now }
    ensures { IfOk result (λ sets. sets ≡ read_own d.now (view value.now) q) }
{
    let Some(member) = value.get(d.name(q)) else {
        return Ok(SetList::new(alloc));
    };
    match read_sets(alloc, d, member)? {
        Some(sets) => Ok(sets),
        None => Ok(SetList::new(alloc)),
    }
}

// The clauses of each item in turn.
fn read_all(alloc: Global, d: &Domain, value: &Value) -> Result<Vec<SetList>, AllocError>
    ensures { IfOk result (λ v. v.items ≡ read_all d.now (view value.now)) }
{
    let mut clauses = Vec::new(alloc);
    for q in 0..d.count() {
        let own = read_own(alloc, d, value, q)?;
        clauses.push(own)?;
    }
    Ok(clauses)
}

/// The clauses of each item of a surmise file in turn, as they stand. The error is `BadJson`, or
/// `UnknownItem`; or memory ran out.
pub(crate) fn read_file(
    alloc: Global,
    d: &Domain,
    bytes: &[u8],
) -> Result<Vec<SetList>, SurmiseFault>
    ensures read { IfOk result (λ v. clauses_read d.now bytes.now ≡ Ok v.items) }
    ensures fault { IfErr result (IsSurmiseFaultOf (clauses_read d.now bytes.now)) }
{
    let Some(value) = value_of(alloc, bytes).map_err(SurmiseFault::Memory)? else {
        return Err(SurmiseFault::BadJson);
    };
    if !is_table(&value) {
        return Err(SurmiseFault::BadJson);
    }
    if !is_known(d, &value) {
        return Err(SurmiseFault::UnknownItem);
    }
    let clauses = read_all(alloc, d, &value).map_err(SurmiseFault::Memory)?;
    Ok(clauses)
}
