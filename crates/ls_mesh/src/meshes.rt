// Laws of meshes.
ghost use Rattle.std.specs.Prelude.{◌≡◌, ◌≢◌, ◌↔◌, ◌<◌, ◌≤◌, ℕ, true, ◌&&◌, List, None};
ghost use Rattle.ls_set.specs.ItemSet.{Items, full, union, meet, minus, len, least, is_within};
ghost use Rattle.ls_set.specs.ItemSet.{is_among, IsInOrder, IsWithin};
ghost use Rattle.ls_theory.specs.Families.{unions, interior, is_space};
ghost use Rattle.ls_theory.specs.Bases.{base};
ghost use Rattle.ls_theory.specs.Projections.{projection};
ghost use Rattle.ls_laws.specs.Spans.{AreOn, needed, spanned};
ghost use Rattle.ls_laws.specs.Families.{IsFamily};
ghost use Rattle.ls_clauses.specs.Traces.{meets_with};
ghost use Rattle.ls_origins.specs.Meshes.{mesh, is_meshed, side};
ghost use Rattle.ls_mesh.specs.Sides.{IsInside, IsSide, AreSides, IsClosed};
ghost use Rattle.ls_mesh.specs.Sides.{side_interior, turns, common, both};

/// The mesh of families that hold the empty set and unions is a family, and the mesh of spaces on
/// parts that together have all items is a space.
pub fn meshes_are_spaces()
    ensures members { (n : ℕ) (x : Items) (f : List Items) (y : Items) (g : List Items)
        (k : Items) →
        is_among (mesh n x f y g) k ≡ (is_within k (full n) && is_meshed x f y g k) }
    ensures family { (n : ℕ) (x : Items) (f : List Items) (y : Items) (g : List Items) →
        IsClosed f → IsClosed g → IsFamily n (mesh n x f y g) }
    ensures space { (n : ℕ) (x : Items) (f : List Items) (y : Items) (g : List Items) →
        union x y ≡ full n → is_space x f ≡ true → is_space y g ≡ true →
        is_space (full n) (mesh n x f y g) ≡ true }
    ensures covered { (n : ℕ) (x y : Items) → IsWithin x (full n) → IsWithin y (full n) →
        (union x y ≡ full n) ↔ (least (minus (full n) (union x y)) ≡ None) }
    ensures closed_space { (x : Items) (f : List Items) → is_space x f ≡ true → IsClosed f }
    ensures closed_family { (n : ℕ) (f : List Items) → IsFamily n f → IsClosed f }
{}

/// The interior on one side lies within the set, keeps each member of the mesh that lies within the
/// set, and has the same interior in the mesh. A set that neither side changes is a member.
pub fn sides_keep_members()
    ensures within { (x : Items) (f : List Items) (s : Items) →
        IsWithin (side_interior x f s) s }
    ensures smaller { (x : Items) (f : List Items) (s : Items) →
        side_interior x f s ≢ s → len (side_interior x f s) < len s }
    ensures left { (n : ℕ) (x : Items) (f : List Items) (y : Items) (g : List Items) (s k : Items) →
        is_among (mesh n x f y g) k ≡ true → IsWithin k s → IsWithin k (side_interior x f s) }
    ensures right { (n : ℕ) (x : Items) (f : List Items) (y : Items) (g : List Items)
        (s k : Items) →
        is_among (mesh n x f y g) k ≡ true → IsWithin k s → IsWithin k (side_interior y g s) }
    ensures left_same { (n : ℕ) (x : Items) (f : List Items) (y : Items) (g : List Items)
        (s : Items) →
        IsClosed f → IsClosed g →
        interior (mesh n x f y g) (side_interior x f s) ≡ interior (mesh n x f y g) s }
    ensures right_same { (n : ℕ) (x : Items) (f : List Items) (y : Items) (g : List Items)
        (s : Items) →
        IsClosed f → IsClosed g →
        interior (mesh n x f y g) (side_interior y g s) ≡ interior (mesh n x f y g) s }
    ensures fixed { (n : ℕ) (x : Items) (f : List Items) (y : Items) (g : List Items) (s : Items) →
        IsClosed f → IsClosed g → IsWithin s (full n) →
        side_interior x f s ≡ s → side_interior y g s ≡ s →
        is_among (mesh n x f y g) s ≡ true }
    ensures fixed_interior { (n : ℕ) (x : Items) (f : List Items) (y : Items) (g : List Items)
        (s : Items) →
        IsClosed f → IsClosed g → IsWithin s (full n) →
        side_interior x f s ≡ s → side_interior y g s ≡ s →
        interior (mesh n x f y g) s ≡ s }
{}

/// The interior of a set in the mesh is reached by interiors on the two sides in turn, at the
/// latest after as many turns as the set has items.
pub fn turns_reach_the_interior()
    ensures { (n : ℕ) (x : Items) (f : List Items) (y : Items) (g : List Items) (m : ℕ)
        (s : Items) →
        IsClosed f → IsClosed g → IsWithin s (full n) → len s ≤ m →
        turns x f y g m s ≡ interior (mesh n x f y g) s }
{}

/// A part that is given by sets: what they span is a space on the items in some set. The interior
/// on its side is told by the sets and the single items outside it, and so is the mesh.
pub fn sides_are_told_by_sets()
    ensures sets { (sets : List Items) → IsInside (unions sets) sets }
    ensures side { (n : ℕ) (sets : List Items) → AreOn n sets →
        IsSide n (unions sets) (spanned n sets) }
    ensures space { (n : ℕ) (sets : List Items) → AreOn n sets →
        is_space (unions sets) (spanned n sets) ≡ true }
    ensures interior { (n : ℕ) (x : Items) (sets : List Items) (s : Items) → IsInside x sets →
        IsWithin s (full n) → interior (side n x sets) s ≡ side_interior x sets s }
    ensures spanned { (n : ℕ) (x : Items) (sets : List Items) (s : Items) → AreOn n sets →
        side_interior x (spanned n sets) s ≡ side_interior x sets s }
    ensures members { (n : ℕ) (x : Items) (left : List Items) (y : Items) (right : List Items)
        (k : Items) →
        IsInside x left → IsInside y right →
        is_among (mesh n x (spanned n left) y (spanned n right)) k
        ≡ (is_among (spanned n (side n x left)) k && is_among (spanned n (side n y right)) k) }
{}

/// The mesh of two parts that are given by sets is what the two sides span in common. What two
/// lists span in common is a family; the interior of a set by either list has the same interior in
/// it, and a set that neither changes is its own.
pub fn meshes_are_spanned_in_common()
    ensures mesh { (n : ℕ) (x : Items) (left : List Items) (y : Items) (right : List Items) →
        IsInside x left → IsInside y right →
        mesh n x (spanned n left) y (spanned n right)
        ≡ common n (side n x left) (side n y right) }
    ensures members { (n : ℕ) (b c : List Items) (k : Items) →
        is_among (common n b c) k ≡ (is_among (spanned n b) k && is_among (spanned n c) k) }
    ensures family { (n : ℕ) (b c : List Items) → IsFamily n (common n b c) }
    ensures left { (n : ℕ) (b c : List Items) (s : Items) →
        interior (common n b c) (interior b s) ≡ interior (common n b c) s }
    ensures right { (n : ℕ) (b c : List Items) (s : Items) →
        interior (common n b c) (interior c s) ≡ interior (common n b c) s }
    ensures fixed { (n : ℕ) (b c : List Items) (s : Items) → IsWithin s (full n) →
        interior b s ≡ s → interior c s ≡ s → interior (common n b c) s ≡ s }
    ensures smaller { (b : List Items) (s : Items) → interior b s ≢ s →
        len (interior b s) < len s }
    ensures shows { (n : ℕ) (x : Items) (sets : List Items) (p : Items) → IsInside x sets →
        IsWithin p x → projection n p (spanned n (side n x sets))
        ≡ projection n p (spanned n sets) }
{}

/// The members of two families are a family. The interior of a set in either has the same interior
/// in it, and a set that is its own interior in both is a member. So interiors in two families, in
/// turn, lead to that in both.
pub fn members_of_both_are_a_family()
    ensures members { (f g : List Items) (k : Items) →
        is_among (both f g) k ≡ (is_among f k && is_among g k) }
    ensures family { (n : ℕ) (f g : List Items) → IsFamily n f → IsFamily n g →
        IsFamily n (both f g) }
    ensures left { (n : ℕ) (f g : List Items) (s : Items) → IsFamily n f → IsFamily n g →
        interior (both f g) (interior f s) ≡ interior (both f g) s }
    ensures right { (n : ℕ) (f g : List Items) (s : Items) → IsFamily n f → IsFamily n g →
        interior (both f g) (interior g s) ≡ interior (both f g) s }
    ensures fixed { (n : ℕ) (f g : List Items) (s : Items) → IsFamily n f → IsFamily n g →
        interior f s ≡ s → interior g s ≡ s → interior (both f g) s ≡ s }
    ensures spanned { (n : ℕ) (b c : List Items) →
        common n b c ≡ both (spanned n b) (spanned n c) }
{}

/// The projections of the mesh on its parts are the families of the parts exactly where these have
/// equal projections on the items of both parts. Families are equal exactly where their bases are,
/// and projections exactly where what is needed of the meets is.
pub fn agreement_is_on_shared_items()
    ensures projections { (n : ℕ) (x : Items) (f : List Items) (y : Items) (g : List Items) →
        AreSides n x f y g →
        (projection n (meet x y) f ≡ projection n (meet x y) g)
        ↔ ((projection n x (mesh n x f y g) ≡ f) × (projection n y (mesh n x f y g) ≡ g)) }
    ensures needed { (n : ℕ) (p : Items) (b c g h : List Items) → AreOn n b → AreOn n c →
        IsInOrder g → IsInOrder h →
        ((k : Items) → is_among g k ≡ is_among (meets_with p b) k) →
        ((k : Items) → is_among h k ≡ is_among (meets_with p c) k) →
        (projection n p (spanned n b) ≡ projection n p (spanned n c)) ↔ (needed g ≡ needed h) }
    ensures bases { (n : ℕ) (f g : List Items) → IsFamily n f → IsFamily n g →
        (f ≡ g) ↔ (base f ≡ base g) }
{}
