// Why a file is no skill map.
use std::alloc::AllocError;
use thiserror::Error;

/// Why a file is no skill map. The first of these that holds is told.
#[derive(Clone, Copy, Debug, Error)]
pub enum SkillFault {
    /// The bytes are no object of arrays of texts.
    #[error("no object of skills")]
    BadJson,
    /// A key is the name of no item.
    #[error("a name that no item has")]
    UnknownItem,
    /// The item has no skill, and each lesser item has one.
    #[error("item {q} has no skill")]
    NoSkill { q: u32 },
    /// There are `count` skills, more than a map may have.
    #[error("{count} skills are too many")]
    Wide { count: usize },
    /// Memory ran out.
    #[error("out of memory")]
    Memory(AllocError),
}

impl From<AllocError> for SkillFault {
    ghost use Rattle.std.specs.Prelude.{◌≡◌};
    ghost use Rattle.ls_origins.specs.declared.skill_fault.SkillFault.TheVariants.{Memory};

    ghost from_gives = { λ e f. f ≡ Memory e };

    fn from(e: AllocError) -> SkillFault {
        SkillFault::Memory(e)
    }
}
