// Members from which the next ones are found by taking out one item.
ghost use Rattle.std.specs.Prelude.{◌≡◌, ◌<◌, ◌≤◌, List, [], IfSome};
ghost use Rattle.ls_set.specs.{Items, keep_before};
ghost use Rattle.ls_enum.specs.Widest.{IsWidest, AreWidest};

use arrayvec::ArrayVec;
use ls_set::{ItemSet, PLACES};

// How many widest members are held. Where more would be of use, the oldest are the least asked.
const MOST_HELD: usize = 16;

/// A member, and a place: it has each member whose items before the place it has.
#[derive(Clone, Copy)]
pub struct WidestMember {
    /// The place.
    pub place: u32,
    /// The member.
    pub member: ItemSet,
}

impl Default for WidestMember {
    fn default() -> WidestMember {
        WidestMember {
            place: 0,
            member: ItemSet::empty(),
        }
    }
}

/// Some widest members of a family: those that were passed last, of which the newest is last. In a
/// listing their places ascend.
#[derive(Drop)]
pub struct WidestMembers {
    /// The widest members.
    pub held: ArrayVec<WidestMember, MOST_HELD>,
}

impl WidestMembers {
    // None.
    pub(crate) fn none() -> WidestMembers
        ensures { result.held.items ≡ [] }
    {
        WidestMembers {
            held: ArrayVec::new(),
        }
    }

    // Adds a widest member. Where there is no room, the oldest goes.
    pub(crate) fn push(&mut self, place: u32, member: ItemSet)
        ensures { (f : List Items) → AreWidest f self.old.held.items → IsWidest f place member →
            AreWidest f self.new.held.items }
    {
        if self.held.is_full() {
            self.held.remove(0);
        }
        self.held.push(WidestMember { place, member });
    }

    // Adds a widest member at an item of a word, where the word lacks the item before: else the one
    // that was added there serves here too.
    pub(crate) fn push_at(&mut self, i: u32, word: ItemSet, member: ItemSet)
        requires { i < PLACES }
        ensures { (f : List Items) → AreWidest f self.old.held.items → IsWidest f i member →
            AreWidest f self.new.held.items }
    {
        if i == 0 || !word.has(i - 1) {
            self.push(i, member);
        }
    }

    // Those at places above `i` go.
    fn drop_above(&mut self, i: u32)
        ensures { (f : List Items) → AreWidest f self.old.held.items →
            AreWidest f self.new.held.items }
    {
        let held = self.held.as_slice();
        let mut count = held.len();
        while count > 0 && held[count - 1].place > i {
            count -= 1;
        }
        self.held.truncate(count);
    }

    // The newest widest member at a place that is not above `i`, where its items before `i` are
    // those that are given. Those at places above `i` go.
    pub(crate) fn at(&mut self, i: u32, before: ItemSet) -> Option<WidestMember>
        requires { i ≤ PLACES }
        ensures widest { (f : List Items) → AreWidest f self.old.held.items →
            IfSome result (λ m. IsWidest f m.place m.member) }
        ensures place { IfSome result (λ m. m.place ≤ i) }
        ensures before { IfSome result (λ m. keep_before m.member i ≡ before) }
        ensures others { (f : List Items) → AreWidest f self.old.held.items →
            AreWidest f self.new.held.items }
    {
        self.drop_above(i);
        let last = *self.held.as_slice().last()?;
        if last.place <= i && last.member.keep_before(i) == before {
            Some(last)
        } else {
            None
        }
    }
}
