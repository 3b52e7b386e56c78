// A walk through the learning paths of a family.
ghost use Rattle.std.specs.Prelude.{◌≡◌, ◌<◌, ◌∷◌, [], true, drop, filter, All};
ghost use Rattle.std.specs.Prelude.{IfSome, MatchOption};
ghost use Rattle.ls_set.specs.{full};
ghost use Rattle.ls_theory.specs.{is_learning_space, is_lex_before, is_order, paths};
ghost use Rattle.ls_paths.specs.Levels.{is_whole};
ghost use Rattle.ls_paths.specs.Left.{paths_left};

use crate::order::Order;
use crate::steps::first_level;
use ls_interior::Inside;
use ls_set::ItemSet;

/// A walk through the learning paths of a learning space, in lexicographic order. It stands at one
/// path, or has passed the last. It takes no memory, and goes on in place: from the last item back
/// to the first at which another can be taken, and from there on by the least items.
#[derive(Drop)]
pub struct Walk<'a, F: Inside> {
    /// The family whose paths are given.
    pub family: &'a F,
    /// The path at which the walk stands, or else the last one that it knew of.
    pub order: Order,
    /// Whether the walk stands at a path.
    pub has_path: bool,
    ghost learning: { is_learning_space (full (F.item_count family.now))
        (F.members family.now) ≡ true },
    ghost whole: { has_path ≡ true → is_whole (F.item_count family.now)
        (F.members family.now) order ≡ true },
}

impl<'a, F: Inside> Walk<'a, F> {
    /// A walk that stands at the first path.
    pub fn from_start(family: &'a F) -> Self
        requires { is_learning_space (full (F.item_count family.now))
            (F.members family.now) ≡ true }
        ensures family { result.family.now ≡ family.now }
        ensures left { paths_left (F.item_count family.now) (F.members family.now)
            result.has_path result.order
            ≡ paths (F.item_count family.now) (F.members family.now) }
    {
        Walk {
            family,
            order: Order::first(family),
            has_path: true,
        }
    }

    /// A walk that stands at the first path after an order of all items, which need not be a path.
    pub fn from_order(family: &'a F, after: &Order) -> Self
        requires learning { is_learning_space (full (F.item_count family.now))
            (F.members family.now) ≡ true }
        requires order { is_order (F.item_count family.now) after.now ≡ true }
        ensures family { result.family.now ≡ family.now }
        ensures left { paths_left (F.item_count family.now) (F.members family.now)
            result.has_path result.order
            ≡ filter (is_lex_before after.now)
            (paths (F.item_count family.now) (F.members family.now)) }
    {
        let mut order = *after;
        let (level, reached) = first_level(family, after.items());
        let has_path = order.leave(family, reached, level);
        Walk {
            family,
            order,
            has_path,
        }
    }

    /// The path at which the walk stands, or `None` where it has passed the last. The path has each
    /// of the family's items once.
    pub fn path(&self) -> Option<&[u32]>
        ensures order { IfSome result (λ path.
            is_order (F.item_count self.now.family.now) path.now ≡ true) }
        ensures items { IfSome result (λ path.
            All (λ item. item < F.item_count self.now.family.now) path.now) }
        ensures left { MatchOption result
            (paths_left (F.item_count self.now.family.now) (F.members self.now.family.now)
            self.now.has_path self.now.order ≡ [])
            (λ path. paths_left (F.item_count self.now.family.now) (F.members self.now.family.now)
            self.now.has_path self.now.order
            ≡ path.now ∷ filter (is_lex_before path.now)
            (paths (F.item_count self.now.family.now) (F.members self.now.family.now))) }
    {
        if self.has_path {
            Some(self.order.items())
        } else {
            None
        }
    }

    /// Goes on to the next path; past the last it stays.
    pub fn advance(&mut self)
        ensures family { self.new.family.now ≡ self.old.family.now }
        ensures left { paths_left (F.item_count self.old.family.now) (F.members self.old.family.now)
            self.new.has_path self.new.order
            ≡ drop 1 (paths_left (F.item_count self.old.family.now)
            (F.members self.old.family.now) self.old.has_path self.old.order) }
    {
        if self.has_path {
            let n = self.family.items();
            self.has_path = self.order.leave(self.family, ItemSet::full(n), n as usize);
        }
    }
}
