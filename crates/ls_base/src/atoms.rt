// Atoms among the sets of a list.
ghost use Rattle.std.specs.Prelude.{◌≡◌, ◌<◌, ◌&&◌, not};
ghost use Rattle.std.specs.List.{list_any};
ghost use Rattle.ls_set.specs.{has, is_same, is_within};
ghost use Rattle.ls_theory.specs.{is_atom_at};

use ls_set::{ItemSet, PLACES};

// Whether the first has item `q`, lies within the second, and is not the same.
#[tactic(auto, unfolding(ls_set::specs::ItemSet::is_same))]
fn is_lesser_with(q: u32, set: ItemSet, other: ItemSet) -> bool
    requires { q < PLACES }
    ensures { result ≡ (has set q && is_within set other && not (is_same set other)) }
{
    set.has(q) && set.is_within(other) && set != other
}

// Whether another set of the list that lies within the set has item `q`.
fn has_lesser_with(sets: &[ItemSet], q: u32, set: ItemSet) -> bool
    requires { q < PLACES }
    ensures { result ≡ list_any (λ l. has l q && is_within l set && not (is_same l set)) sets.now }
{
    sets.iter().any(|other| is_lesser_with(q, *other, set))
}

/// Whether the set has item `q`, and no other set of the list that lies within it has.
pub fn is_atom_at(sets: &[ItemSet], q: u32, set: ItemSet) -> bool
    requires { q < PLACES }
    ensures { result ≡ is_atom_at sets.now q set }
{
    set.has(q) && !has_lesser_with(sets, q, set)
}
