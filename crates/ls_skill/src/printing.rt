// The text of a skill map.
ghost use Rattle.std.specs.Prelude.{◌≡◌, ◌<◌, length, IfOk, OnOk};
ghost use Rattle.serde_json.specs.View.{view, members_view};
ghost use Rattle.serde_json.specs.Data.{put, string};
ghost use Rattle.ls_files.specs.SurmiseFiles.{list_value};
ghost use Rattle.ls_files.specs.SkillFiles.{own_skills, rows_of, members_from, skills_text};
ghost use Rattle.ls_skill.specs.Maps.{skills_seen};

use crate::SkillMap;
use ls_domain::Domain;
use ls_set::{ItemSet, PLACES};
use serde_json::{Map, Value};
use std::alloc::{AllocError, Global};

// The names of the skills of item `q`, in their order.
fn row_value(alloc: Global, skills: &[(String, ItemSet)], q: u32) -> Result<Value, AllocError>
    requires { q < PLACES }
    ensures { IfOk result (λ v.
        view v ≡ list_value string (own_skills (skills_seen skills.now) q)) }
{
    let mut names = Vec::new(alloc);
    for skill in skills {
        if skill.1.has(q) {
            let name = String::from_str(alloc, skill.0.as_str())?;
            names.push(Value::String(name))?;
        }
    }
    Ok(Value::Array(names))
}

// Puts a value at a key.
fn insert_member(
    alloc: Global,
    map: &mut Map<String, Value>,
    key: &str,
    value: Value,
) -> Result<(), AllocError>
    ensures { OnOk result (
        members_view map.new.entries ≡ put key.now (view value) (members_view map.old.entries)) }
{
    map.insert(String::from_str(alloc, key)?, value)?;
    Ok(())
}

impl SkillMap {
    /// The text of the skill map: a JSON object without spaces, which has under each item's name
    /// the names of its skills, in their order. The items' names stand in the order of their bytes.
    /// The text is read as the same map (`skill_maps_are_read_back`). The error is want of memory.
    pub fn print(&self, alloc: Global, d: &Domain) -> Result<Vec<u8>, AllocError>
        requires { length d.now ≡ self.now.item_count }
        ensures { IfOk result (λ v. v.items ≡ skills_text d.now self.now.skills) }
    {
        let members = self.members(alloc, d)?;
        Value::Object(members).to_vec(alloc)
    }

    // The skills of the items under their names. The last item comes first.
    fn members(&self, alloc: Global, d: &Domain) -> Result<Map<String, Value>, AllocError>
        requires { length d.now ≡ self.now.item_count }
        ensures { IfOk result (λ m. members_view m.entries
            ≡ members_from d.now (rows_of (length d.now) self.now.skills)) }
    {
        let mut members = Map::new(alloc);
        for q in (0..d.count()).rev() {
            let row = row_value(alloc, &self.skills, q)?;
            insert_member(alloc, &mut members, d.name(q), row)?;
        }
        Ok(members)
    }
}
