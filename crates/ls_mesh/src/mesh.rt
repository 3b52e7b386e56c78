// The mesh of two parts.
ghost use Rattle.std.specs.Prelude.{◌≡◌, ◌≤◌, ℕ, List, None, IfOk, IfErr, OnOk};
ghost use Rattle.ls_set.specs.{Items};
ghost use Rattle.ls_laws.specs.Spans.{AreOn};
ghost use Rattle.ls_origins.specs.Meshes.{part_items, mesh_fault, agree};
ghost use Rattle.ls_origins.specs.Meshes.{side_base};
ghost use Rattle.ls_mesh.specs.Meshed.{IsMeshOf, IsMeshFaultOf};

use crate::both::Both;
use crate::side::{items_of, side_base};
use ls_base::Base;
use ls_interior::Inside;
use ls_origins::MeshFault;
use ls_project::project_base;
use ls_set::{ItemSet, PLACES};
use std::alloc::{AllocError, Global};
use std::marker::Model;

/// The mesh of two parts: the sets that look to each part like one of its states. It is known by
/// the bases of its two sides, each of which leaves the items outside its part free.
#[derive(Drop)]
pub struct Mesh {
    left: Base,
    right: Base,
    left_items: ItemSet,
    right_items: ItemSet,
}

impl Model for Mesh {
    ghost use Rattle.std.specs.Prelude.{◌≡◌};
    ghost use Rattle.ls_mesh.specs.Meshed.{MeshState};

    ghost Value = { MeshState };

    ghost view = { λ m. record {
      item_count = m.left.item_count;
      left = m.left.sets;
      right = m.right.sets;
      left_items = m.left_items;
      right_items = m.right_items;
    } };

    ghost invariant = { λ m. m.right.item_count ≡ m.left.item_count };
}

impl Mesh {
    /// The mesh of two parts on `n` items, each of which is given by sets: its items are those in
    /// some set, and its states the unions of its sets. The error is the first of these: an item is
    /// in neither part; the base of a side has too many sets, the first side before the second; or
    /// memory ran out.
    pub fn from_sets(
        alloc: Global,
        n: u32,
        left: &[ItemSet],
        right: &[ItemSet],
    ) -> Result<Mesh, MeshFault>
        requires few { n ≤ PLACES }
        requires left { AreOn n left.now }
        requires right { AreOn n right.now }
        ensures of { IfOk result (IsMeshOf n left.now right.now) }
        ensures none { OnOk result (mesh_fault n left.now right.now ≡ None) }
        ensures fault { IfErr result (IsMeshFaultOf (mesh_fault n left.now right.now)) }
    {
        let left_items = items_of(n, left);
        let right_items = items_of(n, right);
        let all = ItemSet::full(n);
        if let Some(item) = all.minus(left_items.union(right_items)).least() {
            return Err(MeshFault::NotCovered { item });
        }
        let left = side_base(alloc, n, 1, left, left_items)?;
        let right = side_base(alloc, n, 2, right, right_items)?;
        Ok(Mesh {
            left,
            right,
            left_items,
            right_items,
        })
    }

    /// The items of the two parts.
    pub fn parts(&self) -> (ItemSet, ItemSet)
        ensures { (n : ℕ) (left right : List Items) → IsMeshOf n left right self.now →
            result ≡ (part_items left, part_items right) }
    {
        (self.left_items, self.right_items)
    }

    /// The base of the first side, in its order: of the first part's sets, and the single items
    /// outside it, those that are no unions of others.
    pub fn left(&self) -> &[ItemSet]
        ensures { (n : ℕ) (left right : List Items) → IsMeshOf n left right self.now →
            result.now ≡ side_base n left }
    {
        self.left.sets()
    }

    /// The same of the second side.
    pub fn right(&self) -> &[ItemSet]
        ensures { (n : ℕ) (left right : List Items) → IsMeshOf n left right self.now →
            result.now ≡ side_base n right }
    {
        self.right.sets()
    }

    /// Whether the states of the two parts have the same projection on the items of both, which is
    /// so exactly where each part's states are the projection of the mesh.
    pub fn agree(&self, alloc: Global) -> Result<bool, AllocError>
        ensures { (n : ℕ) (left right : List Items) → IsMeshOf n left right self.now →
            IfOk result (λ b. b ≡ agree n left right) }
    {
        let shared = self.left_items.meet(self.right_items);
        let left = project_base(alloc, &self.left, shared)?;
        let right = project_base(alloc, &self.right, shared)?;
        Ok(left.sets() == right.sets())
    }
}

impl Inside for Mesh {
    ghost use Rattle.ls_set.specs.{is_among};
    ghost use Rattle.ls_laws.specs.Spans.{spanned};
    ghost use Rattle.ls_laws.proofs.Families.{filter-IsFamily, spanned-IsFamily};
    ghost use Rattle.ls_mesh.specs.Meshed.{meshed};

    ghost item_count = { λ m. m.item_count };

    ghost members = { meshed };

    ghost is_family = { λ m. let other = spanned-IsFamily m.item_count m.right in
        filter-IsFamily m.item_count (spanned m.item_count m.left)
        (is_among (spanned m.item_count m.right)) other.holds_empty other.holds_unions
        (spanned-IsFamily m.item_count m.left) };

    fn items(&self) -> u32 {
        self.left.items()
    }

    fn inside(&self, s: ItemSet) -> ItemSet {
        Both::new(&self.left, &self.right).inside(s)
    }

    fn inside_without(&self, member: ItemSet, item: u32, keep: ItemSet) -> Option<ItemSet> {
        Both::new(&self.left, &self.right).inside_without(member, item, keep)
    }
}
