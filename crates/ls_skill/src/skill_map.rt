// Skill maps.
ghost use Rattle.std.specs.Prelude.{◌≡◌, ◌<◌, ◌≤◌, true, List, Ok, length, IfOk, IfErr};
ghost use Rattle.std.specs.List.{All};
ghost use Rattle.ls_set.specs.{full};
ghost use Rattle.ls_theory.specs.{base, is_space};
ghost use Rattle.ls_laws.specs.Spans.{AreOn};
ghost use Rattle.ls_origins.specs.Skills.{any, skill};
ghost use Rattle.ls_base.specs.Bases.{family};
ghost use Rattle.ls_files.specs.SkillFiles.{Skill, item_sets, skills_of, base_skills};
ghost use Rattle.ls_files.specs.SkillFiles.{skill_items, IsSkillFaultOf};
ghost use Rattle.ls_skill.specs.Maps.{IsMap};

use crate::of_base::skill_name;
use crate::reading::read_skills;
use ls_base::Base;
use ls_domain::Domain;
use ls_interior::Inside;
use ls_origins::SkillFault;
use ls_set::ItemSet;
use std::alloc::{AllocError, Global};
use std::marker::Model;

/// A skill map: skills in the order of their names' bytes, each with the items to which it is
/// attached. Each skill has an item, and each item a skill.
#[derive(Drop)]
pub struct SkillMap {
    item_count: u32,
    pub(crate) skills: Vec<(String, ItemSet)>,
}

impl Model for SkillMap {
    ghost use Rattle.ls_skill.specs.Maps.{SkillMapState, IsMap, skills_seen};

    ghost Value = { SkillMapState };

    ghost view = { λ m.
        record { item_count = m.item_count; skills = skills_seen m.skills.items } };

    ghost invariant = { λ m. IsMap m.item_count (skills_seen m.skills.items) };
}

impl SkillMap {
    /// The skill map of a skill file: an object whose keys are the names of items, and whose values
    /// are arrays of skills' names. The error is the first of these: the bytes are no such object;
    /// a key is no item's name; an item has no skill; there are more skills than
    /// [`MOST_SKILLS`](crate::MOST_SKILLS); or memory ran out.
    pub fn from_json(alloc: Global, d: &Domain, bytes: &[u8]) -> Result<SkillMap, SkillFault>
        ensures skills { IfOk result (λ m. skills_of d.now bytes.now ≡ Ok m.skills) }
        ensures item_count { IfOk result (λ m. m.item_count ≡ length d.now) }
        ensures fault { IfErr result (IsSkillFaultOf (skills_of d.now bytes.now)) }
        ensures items { IfErr result (λ e. All (λ q. q < length d.now) (skill_items e)) }
    {
        let read = read_skills(alloc, d, bytes)?;
        let skills = read.into_iter().collect(alloc)?;
        Ok(SkillMap {
            item_count: d.count(),
            skills,
        })
    }

    /// The skill map with one skill for each set of a base, in their order: `s0001`, `s0002` and so
    /// on. The base's family is its disjunctive states, and no map with this family has fewer
    /// skills.
    pub fn from_base(alloc: Global, base: &Base) -> Result<SkillMap, AllocError>
        requires { is_space (full base.now.item_count) (family base.now) ≡ true }
        ensures skills { IfOk result (λ m. m.skills ≡ base_skills base.now.sets) }
        ensures item_count { IfOk result (λ m. m.item_count ≡ base.now.item_count) }
        ensures any { IfOk result (λ m. any m.item_count (item_sets m.skills) ≡ family base.now) }
        ensures fewest { IfOk result (λ m. (other : List Skill) →
            AreOn m.item_count (item_sets other) →
            any m.item_count (item_sets other) ≡ family base.now →
            length m.skills ≤ length other) }
    {
        let sets = base.sets();
        let mut skills = Vec::new(alloc);
        for place in 0..sets.len() {
            let name = skill_name(alloc, place as u32 + 1)?;
            skills.push((name, sets[place]))?;
        }
        Ok(SkillMap {
            item_count: base.items(),
            skills,
        })
    }

    /// The base of the disjunctive states.
    pub fn to_base(&self, alloc: Global) -> Result<Base, AllocError>
        ensures sets { IfOk result (λ b.
            b.sets ≡ base (any self.now.item_count (item_sets self.now.skills))) }
        ensures item_count { IfOk result (λ b. b.item_count ≡ self.now.item_count) }
        ensures family { IfOk result (λ b.
            family b ≡ any self.now.item_count (item_sets self.now.skills)) }
    {
        let mut sets = Vec::new(alloc);
        for skill in &self.skills {
            sets.push(skill.1)?;
        }
        match Base::spanned_by(alloc, self.item_count, sets) {
            Ok(base) => Ok(base),
            Err(_) => Err(AllocError),
        }
    }

    /// How many skills there are.
    pub fn count(&self) -> u32
        ensures value { result ≡ length self.now.skills }
        ensures map { IsMap self.now.item_count self.now.skills }
    {
        self.skills.len() as u32
    }

    /// The items of the skill at a place, counted from 0.
    pub fn items_of(&self, place: u32) -> ItemSet
        requires { place < length self.now.skills }
        ensures { result ≡ skill (item_sets self.now.skills) place }
    {
        self.skills[place as usize].1
    }
}
