// Surmise functions.
ghost use Rattle.std.specs.Prelude.{◌≡◌, ◌<◌, ◌≤◌, Ok, length, IfOk, IfErr};
ghost use Rattle.std.specs.List.{All};
ghost use Rattle.ls_set.specs.{Items, is_among, most_items};
ghost use Rattle.ls_theory.specs.{all_clauses, base, clauses_at, clauses_of};
ghost use Rattle.ls_base.specs.Bases.{family};
ghost use Rattle.ls_laws.specs.Spans.{AreOn};
ghost use Rattle.ls_clauses.specs.Surmise.{IsSurmise};
ghost use Rattle.ls_files.specs.SurmiseFiles.{surmise_from, surmise_of, surmise_items};
ghost use Rattle.ls_files.specs.SurmiseFiles.{IsSurmiseFaultOf};
ghost use Rattle.ls_surmise.specs.Surmises.{met_by, surmised, IsFromFaultOf};

use crate::fault::FromFault;
use crate::flaws::flaw;
use crate::ordering::{base_of_clauses, put_clauses};
use crate::reading::read_file;
use ls_base::Base;
use ls_domain::Domain;
use ls_interior::Inside;
use ls_set::{ItemSet, SetList};
use ls_theory::SurmiseFault;
use std::alloc::{AllocError, Global};
use std::marker::Model;

/// A surmise function: the clauses of each item, in the order of sets. It means the family of the
/// sets that meet them, and stands beside the base of that family, which has each clause once.
#[derive(Drop)]
pub struct Surmise {
    base: Base,
    clauses: Vec<SetList>,
    pub(crate) alloc: Global,
}

impl Model for Surmise {
    ghost use Rattle.ls_surmise.specs.Surmises.{SurmiseState, IsSurmiseOf};

    ghost Value = { SurmiseState };

    ghost view = { λ s. record { item_count = s.base.item_count; clauses = s.clauses.items } };

    ghost invariant = { λ s. IsSurmiseOf s.base s.clauses.items };
}

// The atoms at each item in turn.
fn atoms_of(alloc: Global, base: &Base) -> Result<Vec<SetList>, AllocError>
    ensures { IfOk result (λ v. v.items ≡ clauses_at base.now.item_count (family base.now)) }
{
    let mut clauses = Vec::new(alloc);
    for q in 0..base.items() {
        let atoms = base.atoms_at(q)?;
        clauses.push(atoms)?;
    }
    Ok(clauses)
}

// The same sets once more.
fn copied_sets(alloc: Global, list: &SetList) -> Result<SetList, AllocError>
    ensures { IfOk result (λ copied. copied ≡ list.now) }
{
    let mut copied = SetList::new(alloc);
    for set in list.as_slice() {
        copied.push(*set)?;
    }
    Ok(copied)
}

// The same lists once more.
fn copied_lists(alloc: Global, lists: &[SetList]) -> Result<Vec<SetList>, AllocError>
    ensures { IfOk result (λ v. v.items ≡ lists.now) }
{
    let mut copied = Vec::new(alloc);
    for list in lists {
        let sets = copied_sets(alloc, list)?;
        copied.push(sets)?;
    }
    Ok(copied)
}

impl Surmise {
    /// The surmise function of the family of all unions of a base: the clauses of an item are the
    /// atoms at it. The error is `NotSpanning` where an item is in no set of the base; or memory
    /// ran out.
    pub fn from_base(alloc: Global, base: &Base) -> Result<Surmise, FromFault>
        ensures clauses { IfOk result (λ s. surmised base.now ≡ Ok s.clauses) }
        ensures item_count { IfOk result (λ s. s.item_count ≡ base.now.item_count) }
        ensures surmise { IfOk result (λ s. IsSurmise s.item_count s.clauses) }
        ensures members { IfOk result (λ s. met_by s ≡ family base.now) }
        ensures fault { IfErr result (IsFromFaultOf (surmised base.now)) }
    {
        let _ = base.sets(); // for the proof
        let all = ItemSet::full(base.items());
        if let Some(item) = all.minus(base.inside(all)).least() {
            return Err(FromFault::NotSpanning { item });
        }
        let clauses = atoms_of(alloc, base)?;
        let base = base.copy()?;
        Ok(Surmise {
            base,
            clauses,
            alloc,
        })
    }

    /// The surmise function of a surmise file: an object whose keys are the names of items, and
    /// whose values are arrays of clauses, each an array of names. The error is the first of these:
    /// the bytes are no such object; a name is that of no item; an item has no clause; a clause
    /// lacks its item; a clause has an item of which no clause lies within it; of two clauses of an
    /// item one lies within the other; there are more distinct clauses than a base may have sets;
    /// or memory ran out.
    pub fn from_json(alloc: Global, d: &Domain, bytes: &[u8]) -> Result<Surmise, SurmiseFault>
        ensures clauses { IfOk result (λ s. surmise_of d.now bytes.now ≡ Ok s.clauses) }
        ensures item_count { IfOk result (λ s. s.item_count ≡ length d.now) }
        ensures surmise { IfOk result (λ s. IsSurmise s.item_count s.clauses) }
        ensures fault { IfErr result (IsSurmiseFaultOf (surmise_of d.now bytes.now)) }
        ensures items { IfErr result (λ e. All (λ q. q < length d.now) (surmise_items e)) }
    {
        let read = read_file(alloc, d, bytes)?;
        Surmise::from_clauses(alloc, d.count(), &read)
    }

    /// The surmise function of the clauses of each of `n` items in turn. Those of an item may stand
    /// in any order, and are put in order. The error is the first of these: an item has no clause;
    /// a clause lacks its item; a clause has an item of which no clause lies within it; of two
    /// clauses of an item one lies within the other; there are more distinct clauses than a base
    /// may have sets; or memory ran out.
    pub fn from_clauses(alloc: Global, n: u32, clauses: &[SetList]) -> Result<Surmise, SurmiseFault>
        requires few { n ≤ most_items }
        requires items { length clauses.now ≡ n }
        requires within { AreOn n (all_clauses clauses.now) }
        ensures clauses { IfOk result (λ s. surmise_from n clauses.now ≡ Ok s.clauses) }
        ensures item_count { IfOk result (λ s. s.item_count ≡ n) }
        ensures surmise { IfOk result (λ s. IsSurmise s.item_count s.clauses) }
        ensures fault { IfErr result (IsSurmiseFaultOf (surmise_from n clauses.now)) }
        ensures items { IfErr result (λ e. All (λ q. q < n) (surmise_items e)) }
    {
        let Ok(ordered) = put_clauses(alloc, clauses) else {
            return Err(SurmiseFault::Memory(AllocError));
        };
        if let Some(fault) = flaw(n, clauses, &ordered) {
            return Err(fault);
        }
        let base = base_of_clauses(alloc, n, clauses)?;
        Ok(Surmise {
            base,
            clauses: ordered,
            alloc,
        })
    }

    /// The base of the sets that meet the clauses, which has each clause once.
    pub fn to_base(&self) -> Result<Base, AllocError>
        ensures sets { IfOk result (λ b. b.sets ≡ base (met_by self.now)) }
        ensures clauses { IfOk result (λ b. (k : Items) →
            is_among b.sets k ≡ is_among (all_clauses self.now.clauses) k) }
        ensures item_count { IfOk result (λ b. b.item_count ≡ self.now.item_count) }
        ensures members { IfOk result (λ b. family b ≡ met_by self.now) }
    {
        self.base.copy()
    }

    /// The same surmise function once more.
    pub fn copy(&self) -> Result<Surmise, AllocError>
        ensures { IfOk result (λ s. s ≡ self.now) }
    {
        let clauses = copied_lists(self.alloc, &self.clauses)?;
        let base = self.base.copy()?;
        Ok(Surmise {
            base,
            clauses,
            alloc: self.alloc,
        })
    }

    /// The clauses of an item, in their order.
    pub fn clauses(&self, q: u32) -> &[ItemSet]
        requires { q < self.now.item_count }
        ensures value { result.now ≡ clauses_of self.now.clauses q }
        ensures surmise { IsSurmise self.now.item_count self.now.clauses }
    {
        self.clauses[q as usize].as_slice()
    }
}

impl Inside for Surmise {
    ghost use Rattle.std.specs.Prelude.{[]};
    ghost use Rattle.ls_theory.specs.Starts.{Clauses};
    ghost use Rattle.ls_laws.proofs.Families.{compat-IsFamily};
    ghost use Rattle.ls_surmise.specs.Surmises.{met_by};

    ghost item_count = { λ s. s.item_count };

    ghost members = { met_by };

    ghost is_family = { λ s. compat-IsFamily s.item_count (Clauses s.clauses) [] };

    fn items(&self) -> u32 {
        self.base.items()
    }

    fn inside(&self, s: ItemSet) -> ItemSet {
        self.base.inside(s)
    }
}
