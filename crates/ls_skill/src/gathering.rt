// The items of each skill, gathered from the rows of a skill file.
ghost use Rattle.std.specs.Prelude.{◌≡◌, ◌<◌, length, option_map, option_and_then, IfOk, OnOk};
ghost use Rattle.serde_json.specs.View.{view, items_view};
ghost use Rattle.serde_json.specs.Find.{as_array, get};
ghost use Rattle.ls_domain.specs.Texts.{name_of};
ghost use Rattle.ls_skill.specs.Maps.{skills_seen};
ghost use Rattle.ls_skill.specs.Gathering.{texts_in, rows_read, with_skill, with_skills, gathered};

use ls_domain::Domain;
use ls_set::{ItemSet, PLACES};
use serde_json::Value;
use std::alloc::{AllocError, Global};
use std::collections::BTreeMap;

/// The items of each skill, by its name.
pub(crate) type Gathered = BTreeMap<String, ItemSet>;

/// The array under the name of item `q`, if there is one.
pub(crate) fn row_of<'a>(d: &Domain, value: &'a Value, q: u32) -> Option<&'a Vec<Value>>
    requires { q < length d.now }
    ensures { option_map (λ v. items_view v.now.items) result
        ≡ option_and_then as_array (get (name_of d.now q) (view value.now)) }
{
    value.get(d.name(q))?.as_array()
}

// The item has the skill too.
fn add_skill(alloc: Global, skills: &mut Gathered, name: &str, q: u32) -> Result<(), AllocError>
    requires { q < PLACES }
    ensures { OnOk result (skills_seen skills.new.entries
        ≡ with_skill q name.now (skills_seen skills.old.entries)) }
{
    let items = skills.get(name).copied().unwrap_or(ItemSet::empty());
    skills.insert(String::from_str(alloc, name)?, items.with(q))?;
    Ok(())
}

// The item has each skill of its row. The last comes first.
fn add_row(alloc: Global, skills: &mut Gathered, row: &[Value], q: u32) -> Result<(), AllocError>
    requires { q < PLACES }
    ensures { OnOk result (skills_seen skills.new.entries
        ≡ with_skills q (texts_in (items_view row.now)) (skills_seen skills.old.entries)) }
{
    for place in (0..row.len()).rev() {
        if let Some(name) = row[place].as_str() {
            add_skill(alloc, skills, name, q)?;
        }
    }
    Ok(())
}

/// The items of each skill of a skill file. The last item comes first.
pub(crate) fn gather(alloc: Global, d: &Domain, value: &Value) -> Result<Gathered, AllocError>
    ensures { IfOk result (λ m. skills_seen m.entries
        ≡ gathered 0 (rows_read d.now (view value.now))) }
{
    let mut skills = BTreeMap::new(alloc);
    for q in (0..d.count()).rev() {
        if let Some(row) = row_of(d, value, q) {
            add_row(alloc, &mut skills, row, q)?;
        }
    }
    Ok(skills)
}
