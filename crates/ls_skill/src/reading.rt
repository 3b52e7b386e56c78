// The skills of a skill file.
ghost use Rattle.std.specs.Prelude.{◌≡◌, ◌<◌, ◌≤◌, ◌==◌, Ok, is_some, length, option_map, IfOk};
ghost use Rattle.std.specs.Prelude.{IfErr};
ghost use Rattle.std.specs.Prelude.{IfSome};
ghost use Rattle.std.specs.List.{All};
ghost use Rattle.serde_json.specs.View.{view, items_view};
ghost use Rattle.serde_json.specs.Find.{as_str};
ghost use Rattle.ls_files.specs.SurmiseFiles.{read_list, value_of};
ghost use Rattle.ls_files.specs.SkillFiles.{read_table, first_bare, skills_of, IsSkillFaultOf};
ghost use Rattle.ls_files.specs.SkillFiles.{skill_items};
ghost use Rattle.ls_skill.specs.Maps.{IsMap, skills_seen};
ghost use Rattle.ls_skill.specs.Gathering.{texts_in, own_row, rows_read, are_keys_named};

use crate::gathering::{Gathered, gather, row_of};
use ls_domain::Domain;
use ls_origins::SkillFault;
use ls_set::PLACES;
use serde_json::Value;
use std::alloc::{AllocError, Global};

/// The most skills of a map.
pub const MOST_SKILLS: usize = 4096;

// The value that the bytes are, if they are one.
fn value_of(alloc: Global, bytes: &[u8]) -> Result<Option<Value>, AllocError>
    ensures { IfOk result (λ found. option_map view found ≡ value_of bytes.now) }
{
    match Value::from_slice(alloc, bytes) {
        Ok(value) => Ok(Some(value)),
        Err(e) => {
            if e.is_memory() {
                Err(AllocError)
            } else {
                Ok(None)
            }
        }
    }
}

// Whether the value is an array of texts.
fn is_text_list(value: &Value) -> bool
    ensures { result ≡ is_some (read_list as_str (view value.now)) }
{
    let Some(entries) = value.as_array() else {
        return false;
    };
    for entry in entries {
        if entry.as_str().is_none() {
            return false;
        }
    }
    true
}

// Whether the value is an object of such arrays.
fn is_table(value: &Value) -> bool
    ensures { result ≡ is_some (read_table (view value.now)) }
{
    let Some(members) = value.as_object() else {
        return false;
    };
    for (_key, member) in members {
        if !is_text_list(member) {
            return false;
        }
    }
    true
}

// Whether the value is an object whose keys are items' names.
#[tactic(auto, using(crate::proofs::Tables::number_named))]
fn has_named_keys(d: &Domain, value: &Value) -> bool
    ensures { result ≡ are_keys_named d.now (view value.now) }
{
    let Some(members) = value.as_object() else {
        return false;
    };
    for (key, _member) in members {
        if d.number(key.as_str()).is_none() {
            return false;
        }
    }
    true
}

// Whether no value is a text.
fn has_no_text(values: &[Value]) -> bool
    ensures { result ≡ (length (texts_in (items_view values.now)) == 0) }
{
    for value in values {
        if value.as_str().is_some() {
            return false;
        }
    }
    true
}

// Whether item `q` has no skill.
fn is_bare(d: &Domain, value: &Value, q: u32) -> bool
    requires { q < length d.now }
    ensures { result ≡ (length (own_row d.now (view value.now) q) == 0) }
{
    match row_of(d, value, q) {
        Some(row) => has_no_text(row),
        None => true,
    }
}

// The least item without a skill.
fn first_bare(d: &Domain, value: &Value) -> Option<u32>
    ensures value { result ≡ first_bare (rows_read d.now (view value.now)) }
    ensures item { IfSome result (λ q. q < length d.now) }
    ensures few { length d.now ≤ PLACES }
{
    for q in 0..d.count() {
        if is_bare(d, value, q) {
            return Some(q);
        }
    }
    None
}

/// The items of each skill of a skill file. The error is the first of these: the bytes are no
/// object of arrays of texts; a key is no item's name; an item has no skill; there are more than
/// [`MOST_SKILLS`] skills; or memory ran out.
pub(crate) fn read_skills(alloc: Global, d: &Domain, bytes: &[u8]) -> Result<Gathered, SkillFault>
    ensures skills { IfOk result (λ m. skills_of d.now bytes.now ≡ Ok (skills_seen m.entries)) }
    ensures map { IfOk result (λ m. IsMap (length d.now) (skills_seen m.entries)) }
    ensures fault { IfErr result (IsSkillFaultOf (skills_of d.now bytes.now)) }
    ensures items { IfErr result (λ e. All (λ q. q < length d.now) (skill_items e)) }
{
    let Some(value) = value_of(alloc, bytes)? else {
        return Err(SkillFault::BadJson);
    };
    if !is_table(&value) {
        return Err(SkillFault::BadJson);
    }
    if !has_named_keys(d, &value) {
        return Err(SkillFault::UnknownItem);
    }
    if let Some(q) = first_bare(d, &value) {
        return Err(SkillFault::NoSkill { q });
    }
    let skills = gather(alloc, d, &value)?;
    let count = skills.len();
    if count > MOST_SKILLS {
        return Err(SkillFault::Wide { count });
    }
    Ok(skills)
}
