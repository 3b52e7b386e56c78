// Families that are shown, each by the few sets that tell it. Contracts see the family.
use ls_set::SetList;
use std::marker::Model;

/// The unions of sets of items: by a skill map, its disjunctive states.
#[derive(Drop)]
pub struct UnionStates {
    /// How many items there are.
    pub items: u32,
    pub sets: SetList,
}

impl Model for UnionStates {
    ghost use Rattle.std.specs.Prelude.{◌≡◌, true};
    ghost use Rattle.ls_set.specs.{IsWithin, Items, full, is_among};
    ghost use Rattle.ls_origins.specs.Skills.{any};
    ghost use Rattle.ls_meaning.specs.StateLists.{StateList, states_on};

    ghost Value = { StateList };

    ghost view = { λ s. states_on s.items (any s.items s.sets) };

    ghost invariant = { λ s. (k : Items) → is_among s.sets k ≡ true → IsWithin k (full s.items) };
}

/// The complements of the unions of sets of items: by a skill map, its conjunctive states.
#[derive(Drop)]
pub struct DualStates {
    /// How many items there are.
    pub items: u32,
    pub sets: SetList,
}

impl Model for DualStates {
    ghost use Rattle.std.specs.Prelude.{◌≡◌, true};
    ghost use Rattle.ls_set.specs.{IsWithin, Items, full, is_among};
    ghost use Rattle.ls_origins.specs.Skills.{all};
    ghost use Rattle.ls_meaning.specs.StateLists.{StateList, states_on};

    ghost Value = { StateList };

    ghost view = { λ s. states_on s.items (all s.items s.sets) };

    ghost invariant = { λ s. (k : Items) → is_among s.sets k ≡ true → IsWithin k (full s.items) };
}

/// The mesh of two parts, each told by sets that have all items.
#[derive(Drop)]
pub struct MeshStates {
    /// How many items there are.
    pub items: u32,
    pub left: SetList,
    pub right: SetList,
}

impl Model for MeshStates {
    ghost use Rattle.std.specs.Prelude.{◌≡◌};
    ghost use Rattle.ls_set.specs.{full};
    ghost use Rattle.ls_origins.specs.Meshes.{mesh_of, part_items};
    ghost use Rattle.ls_meaning.specs.StateLists.{StateList, states_on};

    ghost Value = { StateList };

    ghost view = { λ s. states_on s.items (mesh_of s.items s.left s.right) };

    ghost invariant = { λ s. (part_items s.left ≡ full s.items)
        × (part_items s.right ≡ full s.items) };
}

/// A surmise function: for each item the atoms at it among the sets of a base.
#[derive(Drop)]
pub struct SurmiseClauses {
    /// How many items there are.
    pub items: u32,
    pub base: SetList,
    /// For each set of the base the items at which it is an atom.
    pub atoms: SetList,
}

impl Model for SurmiseClauses {
    ghost use Rattle.std.specs.Prelude.{◌≡◌, List, map};
    ghost use Rattle.ls_set.specs.{Items, set_of};
    ghost use Rattle.ls_theory.specs.{atom_items, clauses_at};

    ghost Value = { List (List Items) };

    ghost view = { λ s. clauses_at s.items s.base };

    ghost invariant = { λ s. s.atoms ≡ map (λ k. set_of (atom_items s.base k)) s.base };
}
