// The family of a start and its rules, by few of the rules.
ghost use Rattle.std.specs.Prelude.{◌≡◌, [], Bool, true, IfOk};
ghost use Rattle.std.specs.List.{list_all};
ghost use Rattle.ls_set.specs.{is_good};
ghost use Rattle.ls_set.specs.declared.query.Query.{Query};
ghost use Rattle.ls_theory.specs.{compat};

use crate::on_items::OnItems;
use crate::saved::is_broken;
use ls_interior::{Counted, Inside, Steps};
use ls_rules::Ruled;
use ls_set::{ItemSet, Query};
use std::alloc::{AllocError, Global};
use std::marker::Model;
use std::sync::ledger::Ledger;

/// A borrowed start with its items, as a family. Contracts see it as what is borrowed.
#[derive(Drop)]
pub struct Lent<'a> {
    first: &'a OnItems,
}

impl<'a> Model for Lent<'a> {
    ghost use Rattle.ls_standing.specs.Starts.{StartOn};

    ghost Value = { StartOn };

    ghost view = { λ l. l.first.now };
}

impl Inside for Lent<'_> {
    ghost use Rattle.ls_laws.proofs.Families.{compat-IsFamily};

    ghost item_count = { λ s. s.item_count };

    ghost members = { λ s. compat s.item_count s.start [] };

    ghost is_family = { λ s. compat-IsFamily s.item_count s.start [] };

    fn items(&self) -> u32 {
        self.first.items()
    }

    fn inside(&self, s: ItemSet) -> ItemSet {
        self.first.inside(s)
    }
}

// The rules by the size of their sets A.
fn by_size(alloc: Global, rules: &[Query]) -> Result<Vec<Query>, AllocError>
    ensures { (p : Query → Bool) → IfOk result (λ v.
        list_all p v.items ≡ list_all p rules.now) }
{
    let mut sorted = Vec::from_slice(alloc, rules)?;
    sorted.sort_by_key(|r| r.a.len())?;
    Ok(sorted)
}

/// The sets that meet the start and break none of the rules, by those of the rules alone that the
/// ones with smaller sets A don't force.
pub fn leading<'a, L: Ledger>(
    alloc: Global,
    first: &'a OnItems,
    rules: &[Query],
    steps: &mut Steps<L>,
) -> Result<Ruled<Lent<'a>>, AllocError>
    requires { list_all (is_good first.now.item_count) rules.now ≡ true }
    ensures inner { IfOk result (λ f. f.inner ≡ first.now) }
    ensures members { IfOk result (λ f. compat first.now.item_count first.now.start f.rules
        ≡ compat first.now.item_count first.now.start rules.now) }
{
    let sorted = by_size(alloc, rules)?;
    let mut family = Ruled::new(alloc, Lent { first });
    for rule in &sorted {
        if is_broken(&Counted::new(&family), rule, steps) {
            family.reserve()?;
            family.push_reserved(*rule);
        }
    }
    Ok(family)
}
