// Families.
ghost use Rattle.std.specs.Prelude.{◌≡◌, ◌<◌, ◌≤◌, ◌∷◌, [], Ok, length, IfOk, IfErr, MatchOption};
ghost use Rattle.ls_set.specs.{IsInOrder, is_among};
ghost use Rattle.ls_cutting.specs.{lines};
ghost use Rattle.ls_files.specs.SetFiles.{sets_of, found_from, IsFamilyFault};

use crate::found::Found;
use crate::member::order_of;
use crate::place::first_place;
use crate::set_line::read_line;
use ls_domain::Domain;
use ls_files::FamilyFault;
use ls_set::{ItemSet, PLACES};
use std::alloc::Global;
use std::marker::Model;

/// A family of sets of items: its sets stand in the order of sets, each once.
#[derive(Drop)]
pub struct Family {
    items: u32,
    members: Vec<ItemSet>,
}

impl Model for Family {
    ghost use Rattle.ls_family.specs.Members.{FamilyState, IsFamilyState};

    ghost Value = { FamilyState };

    ghost view = { λ f. record { item_count = f.items; sets = f.members.items } };

    ghost invariant = { λ f. IsFamilyState (record {
      item_count = f.items;
      sets = f.members.items;
    }) };
}

impl Family {
    /// The family of a set file, with the domain's items. The error is that of the first line that
    /// has one; or memory ran out.
    pub fn from_text(alloc: Global, d: &Domain, bytes: &[u8]) -> Result<Family, FamilyFault>
        ensures read { IfOk result (λ f. sets_of d.now bytes.now ≡ Ok f.sets) }
        ensures items { IfOk result (λ f. f.item_count ≡ length d.now) }
        ensures fault { IfErr result (IsFamilyFault (sets_of d.now bytes.now)) }
    {
        let found = found_in(alloc, d, bytes)?;
        let members = found.sets(alloc).map_err(FamilyFault::Memory)?;
        Ok(Family {
            items: d.count(),
            members,
        })
    }

    /// How many items there are.
    pub fn items(&self) -> u32
        ensures count { result ≡ self.now.item_count }
        ensures few { result ≤ PLACES }
    {
        self.items
    }

    /// The sets, in the order of sets, each once.
    pub fn members(&self) -> &[ItemSet]
        ensures sets { result.now ≡ self.now.sets }
        ensures in_order { IsInOrder self.now.sets }
    {
        &self.members
    }

    /// Whether the set is one of the family.
    pub fn contains(&self, s: ItemSet) -> bool
        ensures { result ≡ is_among self.now.sets s }
    {
        self.members
            .binary_search_by(|set| order_of(*set, s))
            .is_ok()
    }
}

// The sets of a file, with their rows.
fn found_in(alloc: Global, d: &Domain, bytes: &[u8]) -> Result<Found, FamilyFault>
    ensures read { IfOk result (λ f. found_from d.now [] 1 (lines bytes.now) ≡ Ok f) }
    ensures fault { IfErr result (IsFamilyFault (found_from d.now [] 1 (lines bytes.now))) }
{
    let mut found = Found::new(alloc);
    let mut text = Some(bytes);
    let mut row = 1;
    while let Some(rest) = text {
        let (line, more) = first_line(rest);
        found.take_line(row, read_line(d, line))?;
        text = more;
        row += 1;
    }
    Ok(found)
}

// The first line, and what follows its line feed, if it has one.
fn first_line(text: &[u8]) -> (&[u8], Option<&[u8]>)
    ensures { MatchOption result.1 (lines text.now ≡ result.0.now ∷ [])
        (λ more. (lines text.now ≡ result.0.now ∷ lines more.now)
        × (length more.now < length text.now)) }
{
    match first_place(b'\n', text) {
        None => (text, None),
        Some(end) => (&text[..end], Some(&text[end + 1..])),
    }
}
