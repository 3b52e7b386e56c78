// Laws of meshes of parts that are given by sets, by the bases of their sides.
ghost use Rattle.std.specs.Prelude.{◌≡◌, ◌↔◌, ℕ, true, List, None};
ghost use Rattle.ls_set.specs.ItemSet.{Items, full, union, meet};
ghost use Rattle.ls_theory.specs.Families.{is_space};
ghost use Rattle.ls_theory.specs.Bases.{base};
ghost use Rattle.ls_theory.specs.Projections.{projection};
ghost use Rattle.ls_laws.specs.Spans.{AreOn, spanned};
ghost use Rattle.ls_laws.specs.Families.{IsFamily};
ghost use Rattle.ls_origins.specs.Meshes.{part_items, part_family, mesh_of, uncovered, side};
ghost use Rattle.ls_origins.specs.Meshes.{mesh_fault, agree};
ghost use Rattle.ls_mesh.specs.Sides.{both, common};
ghost use Rattle.ls_origins.specs.Meshes.{side_base};

/// The mesh of two parts is what the bases of their sides span in common, and a family: what is in
/// the families of both bases, and the mesh of the bases themselves. It is a space where there is
/// no fault.
pub fn meshes_are_told_by_bases()
    ensures spanned { (n : ℕ) (sets : List Items) → part_family n sets ≡ spanned n sets }
    ensures bases { (n : ℕ) (b c : List Items) →
        common n (base (spanned n b)) (base (spanned n c)) ≡ common n b c }
    ensures mesh { (n : ℕ) (left right : List Items) →
        mesh_of n left right ≡ common n (side_base n left) (side_base n right) }
    ensures both { (n : ℕ) (left right : List Items) → mesh_of n left right
        ≡ both (part_family n (side_base n left)) (part_family n (side_base n right)) }
    ensures again { (n : ℕ) (left right : List Items) → AreOn n left → AreOn n right →
        mesh_of n (side_base n left) (side_base n right) ≡ mesh_of n left right }
    ensures base_sets { (n : ℕ) (sets : List Items) → AreOn n (side_base n sets) }
    ensures base_again { (n : ℕ) (sets : List Items) → AreOn n sets →
        side_base n (side_base n sets) ≡ side_base n sets }
    ensures sides { (n : ℕ) (sets : List Items) → AreOn n sets →
        AreOn n (side n (part_items sets) sets) }
    ensures family { (n : ℕ) (left right : List Items) → IsFamily n (mesh_of n left right) }
    ensures covered { (n : ℕ) (left right : List Items) → AreOn n left → AreOn n right →
        (uncovered n left right ≡ None)
        ↔ (union (part_items left) (part_items right) ≡ full n) }
    ensures space { (n : ℕ) (left right : List Items) → AreOn n left → AreOn n right →
        mesh_fault n left right ≡ None → is_space (full n) (mesh_of n left right) ≡ true }
{}

/// Two parts agree exactly where their families have equal projections on the items of both,
/// exactly where the projections of the mesh on the parts are the families, and exactly where the
/// projections of what the bases of their sides span have the same base.
pub fn agreement_is_told_by_bases()
    ensures projections { (n : ℕ) (left right : List Items) →
        let shared = meet (part_items left) (part_items right) in
        (agree n left right ≡ true)
        ↔ (projection n shared (part_family n left) ≡ projection n shared (part_family n right)) }
    ensures mesh { (n : ℕ) (left right : List Items) → AreOn n left → AreOn n right →
        (agree n left right ≡ true)
        ↔ ((projection n (part_items left) (mesh_of n left right) ≡ part_family n left)
        × (projection n (part_items right) (mesh_of n left right) ≡ part_family n right)) }
    ensures bases { (n : ℕ) (left right : List Items) →
        let shared = meet (part_items left) (part_items right) in
        (agree n left right ≡ true)
        ↔ (base (projection n shared (spanned n (side_base n left)))
        ≡ base (projection n shared (spanned n (side_base n right)))) }
{}
