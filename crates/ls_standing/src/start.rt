// Starts of interviews.
ghost use Rattle.std.specs.Prelude.{◌≡◌, ◌≤◌, [], true, IfOk};
ghost use Rattle.ls_set.specs.{IsWithin, full, is_among};
ghost use Rattle.ls_theory.specs.{base, compat, interior, outer_fringe};

use ls_base::Base;
use ls_interior::Inside;
use ls_set::{ItemSet, PLACES};
use ls_surmise::Surmise;
use std::alloc::{AllocError, Global};

/// Which sets an interview begins with: all of them, those that meet the clauses of a surmise
/// function, or the unions of the sets of a base.
#[derive(Drop)]
pub enum Start {
    Free,
    Clauses(Surmise),
    Sets(Base),
}

impl Start {
    ghost use Rattle.ls_standing.specs.Starts.{start_of, IsStartOn};

    /// The same start once more.
    pub fn copy(&self) -> Result<Start, AllocError>
        ensures { IfOk result (λ s. s ≡ self.now) }
    {
        match self {
            Start::Free => Ok(Start::Free),
            Start::Clauses(surmise) => Ok(Start::Clauses(surmise.copy()?)),
            Start::Sets(base) => Ok(Start::Sets(base.copy()?)),
        }
    }

    /// The interior of a set of `n` items in the sets that meet the start.
    pub fn inside(&self, n: u32, s: ItemSet) -> ItemSet
        requires within { IsWithin s (full n) }
        requires start { IsStartOn n self.now }
        ensures { result ≡ interior (compat n (start_of self.now) []) s }
    {
        match self {
            Start::Free => s,
            _ => self.inside_listed(n, s),
        }
    }

    // The same, found among clauses or base sets. It is not made part of its callers, so that where
    // all sets meet the start an interior costs nothing.
    #[inline(never)]
    fn inside_listed(&self, n: u32, s: ItemSet) -> ItemSet
        requires within { IsWithin s (full n) }
        requires start { IsStartOn n self.now }
        ensures { result ≡ interior (compat n (start_of self.now) []) s }
    {
        match self {
            Start::Free => s,
            Start::Clauses(surmise) => surmise.inside(s),
            Start::Sets(base) => base.inside(s),
        }
    }

    /// The items outside a set that meets the start with which it meets the start. Of another set
    /// any set of items may be given.
    pub fn outer_fringe(&self, n: u32, member: ItemSet) -> ItemSet
        requires few { n ≤ PLACES }
        requires within { IsWithin member (full n) }
        requires start { IsStartOn n self.now }
        ensures { let f = compat n (start_of self.now) [] in
            is_among f member ≡ true → result ≡ outer_fringe n f member }
    {
        match self {
            Start::Free => ItemSet::full(n).minus(member),
            Start::Clauses(surmise) => surmise.outer_fringe(member),
            Start::Sets(base) => base.outer_fringe(member),
        }
    }

    /// The base of the sets of `n` items that meet the start.
    pub fn base(&self, alloc: Global, n: u32) -> Result<Base, AllocError>
        requires few { n ≤ PLACES }
        requires start { IsStartOn n self.now }
        ensures items { IfOk result (λ b. b.item_count ≡ n) }
        ensures sets { IfOk result (λ b. b.sets ≡ base (compat n (start_of self.now) [])) }
    {
        match self {
            Start::Free => Base::singletons(alloc, n),
            Start::Clauses(surmise) => surmise.to_base(),
            Start::Sets(base) => {
                let _ = base.sets(); // for the proof
                base.copy()
            }
        }
    }
}
