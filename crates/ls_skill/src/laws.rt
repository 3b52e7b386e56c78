// Laws of skill maps and their texts.
ghost use Rattle.std.specs.Prelude.{◌≡◌, List, Ok, length};
ghost use Rattle.ls_cutting.specs.{Text};
ghost use Rattle.ls_domain.specs.Domains.{IsDomain};
ghost use Rattle.ls_files.specs.SkillFiles.{Skill, skills_of, skills_text};
ghost use Rattle.ls_skill.specs.Maps.{IsMap};

/// What is printed of a skill map is read as the same map. Nothing is done.
pub fn skill_maps_are_read_back()
    ensures { (names : List Text) (m : List Skill) → IsDomain names → IsMap (length names) m →
        skills_of names (skills_text names m) ≡ Ok m }
{}
