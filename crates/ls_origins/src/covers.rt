// Lists of covers.
ghost use Rattle.std.specs.Prelude.{◌≡◌, ◌++◌, ◌∷◌, [], map, OnOk, OnErr};
ghost use Rattle.ls_origins.specs.Relations.{pair_of};

use crate::Cover;
use std::alloc::{AllocError, Global};
use std::marker::Model;

/// Covers of a relation, in the order in which they were pushed. Contracts see each as the pair of
/// its lower and its higher item.
#[derive(Drop)]
pub struct Covers {
    covers: Vec<Cover>,
}

impl Model for Covers {
    ghost use Rattle.std.specs.Prelude.{ℕ, List, map};
    ghost use Rattle.ls_origins.specs.Relations.{pair_of};

    ghost Value = { List (ℕ × ℕ) };

    ghost view = { λ l. map pair_of l.covers.items };
}

impl Covers {
    /// No cover. It takes no memory.
    pub fn new(alloc: Global) -> Self
        ensures { result ≡ [] }
    {
        Covers {
            covers: Vec::new(alloc),
        }
    }

    /// Puts a cover last, unless memory runs out; the list is then unchanged.
    pub fn push(&mut self, cover: Cover) -> Result<(), AllocError>
        ensures ok { OnOk result (self.new ≡ self.old ++ pair_of cover ∷ []) }
        ensures err { OnErr result (self.new ≡ self.old) }
    {
        self.covers.push(cover)?;
        Ok(())
    }

    /// The covers, in their order.
    pub fn as_slice(&self) -> &[Cover]
        ensures { map pair_of result.now ≡ self.now }
    {
        &self.covers
    }
}
