// Pages of the states that a skill map delineates.
ghost use Rattle.std.specs.Prelude.{◌≡◌, [], IfOk, length};
ghost use Rattle.ls_laws.specs.Spans.{AreOn};
ghost use Rattle.ls_files.specs.SkillFiles.{skills_of};
ghost use Rattle.ls_meaning.specs.SkillRows.{delineated, delineated_by};

use ls_domain::Domain;
use ls_meaning::{DualStates, Refusal, Response, Shown, SkillModel, UnionStates};
use ls_origins::SkillFault;
use ls_set::{ItemSet, SetList};
use ls_skill::SkillMap;
use std::alloc::{AllocError, Global};

/// A page of the states that the skill map of a file delineates, or the refusal of bytes that give
/// none. Of the skills' sets those of the base are kept. The error is want of memory.
pub fn delineate(
    alloc: Global,
    domain: &Domain,
    model: SkillModel,
    bytes: &[u8],
    count: u32,
    after: Option<ItemSet>,
) -> Result<Response, AllocError>
    ensures { IfOk result (λ r. r ≡ delineated_by model (length domain.now) count after []
        (skills_of domain.now bytes.now)) }
{
    match SkillMap::from_json(alloc, domain, bytes) {
        Ok(map) => {
            let base = map.to_base(alloc)?;
            let sets = SetList::from_slice(alloc, base.sets())?;
            Ok(Response::Shown(page_of(model, domain.count(), sets, count, after)))
        }
        Err(SkillFault::Memory(e)) => Err(e),
        Err(fault) => Ok(Response::Refused(Refusal::Skills(fault))),
    }
}

// A page of the states that sets of the items delineate.
fn page_of(
    model: SkillModel,
    items: u32,
    sets: SetList,
    count: u32,
    after: Option<ItemSet>,
) -> Shown
    requires { AreOn items sets }
    ensures { result ≡ delineated items model sets count after }
{
    match model {
        SkillModel::Disjunctive => Shown::Unions {
            states: UnionStates { items, sets },
            count,
            after,
        },
        SkillModel::Conjunctive => Shown::Duals {
            states: DualStates { items, sets },
            count,
            after,
        },
    }
}
