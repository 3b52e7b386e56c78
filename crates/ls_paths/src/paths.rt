// The learning paths of a family, one after another.
ghost use Rattle.std.specs.Prelude.{◌≡◌, ◌∷◌, ⊤, true, filter, find, IfSome};
ghost use Rattle.std.specs.Iterator.{YieldsFirst, item_count, MakesProgress};
ghost use Rattle.ls_set.specs.{full};
ghost use Rattle.ls_theory.specs.{is_learning_space, is_lex_before, is_order, paths};
ghost use Rattle.ls_paths.specs.Left.{paths_left};

use crate::order::Order;
use crate::walk::Walk;
use ls_interior::Inside;

/// The first learning path of a learning space: at each step the least item that can be added.
pub fn first_path<F: Inside>(f: &F) -> Order
    requires { is_learning_space (full (F.item_count f.now)) (F.members f.now) ≡ true }
    ensures order { is_order (F.item_count f.now) result ≡ true }
    ensures first { paths (F.item_count f.now) (F.members f.now)
        ≡ result ∷ filter (is_lex_before result) (paths (F.item_count f.now) (F.members f.now)) }
{
    Order::first(f)
}

/// The first learning path of a learning space after an order of all its items, which need not be
/// a path; `None` where there is none.
pub fn next_path<F: Inside>(f: &F, after: &Order) -> Option<Order>
    requires learning { is_learning_space (full (F.item_count f.now)) (F.members f.now) ≡ true }
    requires order { is_order (F.item_count f.now) after.now ≡ true }
    ensures order { IfSome result (λ path. is_order (F.item_count f.now) path ≡ true) }
    ensures next { result
        ≡ find (is_lex_before after.now) (paths (F.item_count f.now) (F.members f.now)) }
{
    let walk = Walk::from_order(f, after);
    if walk.has_path {
        Some(walk.order)
    } else {
        None
    }
}

/// The learning paths of a learning space in lexicographic order: all of them, or those after an
/// order. Each is copied out of a [`Walk`], which a listing had better use itself.
#[derive(Drop)]
pub struct Paths<'a, F: Inside> {
    /// The walk that finds them.
    pub walk: Walk<'a, F>,
}

impl<'a, F: Inside> Paths<'a, F> {
    /// All paths.
    pub fn from_start(family: &'a F) -> Self
        requires { is_learning_space (full (F.item_count family.now))
            (F.members family.now) ≡ true }
        ensures family { result.walk.family.now ≡ family.now }
        ensures left { paths_left (F.item_count family.now) (F.members family.now)
            result.walk.has_path result.walk.order
            ≡ paths (F.item_count family.now) (F.members family.now) }
    {
        Paths {
            walk: Walk::from_start(family),
        }
    }

    /// The paths that come after an order of all items, which need not be a path.
    pub fn from_order(family: &'a F, after: &Order) -> Self
        requires learning { is_learning_space (full (F.item_count family.now))
            (F.members family.now) ≡ true }
        requires order { is_order (F.item_count family.now) after.now ≡ true }
        ensures family { result.walk.family.now ≡ family.now }
        ensures left { paths_left (F.item_count family.now) (F.members family.now)
            result.walk.has_path result.walk.order
            ≡ filter (is_lex_before after.now)
            (paths (F.item_count family.now) (F.members family.now)) }
    {
        Paths {
            walk: Walk::from_order(family, after),
        }
    }
}

impl<'a, F: Inside> Iterator for Paths<'a, F> {
    type Item = Order;

    ghost next_gives = { YieldsFirst (λ s. paths_left (F.item_count s.walk.family.now)
        (F.members s.walk.family.now) s.walk.has_path s.walk.order) };

    ghost remaining = { item_count (λ s. paths_left (F.item_count s.walk.family.now)
        (F.members s.walk.family.now) s.walk.has_path s.walk.order) };

    fn next(&mut self) -> Option<Order>
        ensures steps { YieldsFirst (λ s. paths_left (F.item_count s.walk.family.now)
            (F.members s.walk.family.now) s.walk.has_path s.walk.order)
            self.old result self.new }
        ensures goes { MakesProgress (λ _. ⊤)
            (item_count (λ s. paths_left (F.item_count s.walk.family.now)
            (F.members s.walk.family.now) s.walk.has_path s.walk.order))
            self.old result self.new }
        ensures order { IfSome result (λ path.
            is_order (F.item_count self.old.walk.family.now) path ≡ true) }
        ensures family { self.new.walk.family.now ≡ self.old.walk.family.now }
    {
        if !self.walk.has_path {
            return None;
        }
        let path = self.walk.order;
        self.walk.advance();
        Some(path)
    }
}
