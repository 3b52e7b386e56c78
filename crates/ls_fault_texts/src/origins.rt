// Faults of skill maps, meshes, relations and safe interviews.
use crate::print_each;
use ls_origins::{MeshFault, PairFault, RelationFault, SafeFault, SkillFault};
use std::alloc::AllocError;
use std::io;

pub(crate) fn print<R: Print>(rt: &R) -> io::Result<()> {
    print_each(
        rt,
        "SkillFault",
        &[
            SkillFault::BadJson,
            SkillFault::UnknownItem,
            SkillFault::NoSkill { q: 51 },
            SkillFault::Wide { count: 52 },
            SkillFault::Memory(AllocError),
        ],
    )?;
    print_each(
        rt,
        "MeshFault",
        &[
            MeshFault::NotCovered { item: 53 },
            MeshFault::Wide { side: 2, count: 54 },
            MeshFault::Memory(AllocError),
        ],
    )?;
    print_each(
        rt,
        "PairFault",
        &[
            PairFault::BadLine { row: 55 },
            PairFault::UnknownItem { row: 56 },
            PairFault::Cycle { item: 57 },
            PairFault::Memory(AllocError),
        ],
    )?;
    print_those_of_spaces(rt)
}

// Those of what stands.
fn print_those_of_spaces<R: Print>(rt: &R) -> io::Result<()> {
    print_each(
        rt,
        "RelationFault",
        &[
            RelationFault::TwoClauses { item: 58 },
            RelationFault::Quasi {
                first: 59,
                second: 60,
            },
            RelationFault::Memory(AllocError),
        ],
    )?;
    print_each(
        rt,
        "SafeFault",
        &[
            SafeFault::BadQuery,
            SafeFault::Repeat { number: 61 },
            SafeFault::Full,
            SafeFault::Past { count: 62 },
            SafeFault::Memory(AllocError),
        ],
    )
}
