// Starts that files give.
ghost use Rattle.std.specs.Prelude.{IfOk, length};
ghost use Rattle.ls_theory.specs.{based};
ghost use Rattle.ls_laws.specs.Spans.{AreOn};
ghost use Rattle.ls_files.specs.SetFiles.{sets_of};
ghost use Rattle.ls_files.specs.PairFiles.{relation_of};
ghost use Rattle.ls_files.specs.SurmiseFiles.{surmise_of};
ghost use Rattle.ls_meaning.specs.{start_of_base, start_of_clauses, start_of_sets, start_read};
ghost use Rattle.ls_meaning.specs.Rows.{start_of_relation};
ghost use Rattle.ls_meaning.specs.declared.request.StartFile.TheVariants as StartFile;
ghost use Rattle.ls_deciding.specs.Readings.{HasNumber, IsStartRead};

use ls_base::Base;
use ls_domain::Domain;
use ls_family::{Family, FamilyFault, files_have_sets_of_items};
use ls_meaning::{Refusal, StartFile};
use ls_order::Relation;
use ls_origins::PairFault;
use ls_set::ItemSet;
use ls_standing::Start;
use ls_surmise::Surmise;
use ls_theory::{BaseFault, SurmiseFault};
use std::alloc::{AllocError, Global};

/// The start that the bytes of a file give, or the refusal of bytes that give none. The base of a
/// relation's start has as many sets as there are items. The error is want of memory.
pub fn read_start(
    alloc: Global,
    domain: &Domain,
    file: StartFile,
    bytes: &[u8],
) -> Result<Result<Start, Refusal>, AllocError>
    ensures read { IfOk result (IsStartRead domain.now (start_read file domain.now bytes.now)) }
    ensures number { IfOk result (HasNumber file (length domain.now)) }
{
    match file {
        StartFile::Surmise => read_clauses(alloc, domain, bytes),
        StartFile::Base => read_sets(alloc, domain, bytes),
        StartFile::Relation => read_pairs(alloc, domain, bytes),
    }
}

// The start of a surmise file.
fn read_clauses(
    alloc: Global,
    domain: &Domain,
    bytes: &[u8],
) -> Result<Result<Start, Refusal>, AllocError>
    ensures { IfOk result (IsStartRead domain.now
        (start_of_clauses (surmise_of domain.now bytes.now))) }
{
    match Surmise::from_json(alloc, domain, bytes) {
        Ok(surmise) => Ok(Ok(Start::Clauses(surmise))),
        Err(SurmiseFault::Memory(e)) => Err(e),
        Err(fault) => Ok(Err(Refusal::StartSurmise(fault))),
    }
}

// The start of a file of pairs.
fn read_pairs(
    alloc: Global,
    domain: &Domain,
    bytes: &[u8],
) -> Result<Result<Start, Refusal>, AllocError>
    ensures read { IfOk result (IsStartRead domain.now
        (start_of_relation (relation_of domain.now bytes.now))) }
    ensures number { IfOk result (HasNumber StartFile.Relation (length domain.now)) }
{
    match Relation::from_text(alloc, domain, bytes) {
        Ok(relation) => {
            let _ = relation.items(); // it is an order
            Ok(Ok(Start::Clauses(relation.to_surmise(alloc)?)))
        }
        Err(PairFault::Memory(e)) => Err(e),
        Err(fault) => Ok(Err(Refusal::StartRelation(fault))),
    }
}

// The start of a set file.
fn read_sets(
    alloc: Global,
    domain: &Domain,
    bytes: &[u8],
) -> Result<Result<Start, Refusal>, AllocError>
    ensures { IfOk result (IsStartRead domain.now
        (start_of_sets (length domain.now) (sets_of domain.now bytes.now))) }
{
    match Family::from_text(alloc, domain, bytes) {
        Ok(family) => {
            files_have_sets_of_items();
            base_of(alloc, domain, family.members())
        }
        Err(FamilyFault::Memory(e)) => Err(e),
        Err(fault) => Ok(Err(Refusal::StartSets(fault))),
    }
}

// The start by the base of all unions of sets of the domain's items.
fn base_of(
    alloc: Global,
    domain: &Domain,
    sets: &[ItemSet],
) -> Result<Result<Start, Refusal>, AllocError>
    requires { AreOn (length domain.now) sets.now }
    ensures { IfOk result (IsStartRead domain.now
        (start_of_base (based (length domain.now) sets.now))) }
{
    match Base::from_sets(alloc, domain.count(), sets) {
        Ok(base) => Ok(Ok(Start::Sets(base))),
        Err(BaseFault::Memory(e)) => Err(e),
        Err(fault) => Ok(Err(Refusal::StartBase(fault))),
    }
}
