// What is known of the pupils of a class.
ghost use Rattle.std.specs.Prelude.{◌≡◌, ◌++◌, ◌∷◌, [], map, OnOk, OnErr};
ghost use Rattle.ls_files.specs.ClassResults.{result_of};

use ls_cutting::Word;
use ls_set::ItemSet;
use ls_theory::Reason;
use std::alloc::{AllocError, Global};
use std::marker::Model;

/// What is known of a pupil of a class when its assessment is over: how many replies it took, why
/// it is over, and the leading state.
#[derive(Drop)]
pub struct ClassResult {
    pub name: Word,
    pub replies: u64,
    pub reason: Reason,
    pub state: ItemSet,
}

/// What is known of the pupils of a class, in the order of its table.
#[derive(Drop)]
pub struct Results {
    results: Vec<ClassResult>,
}

impl Model for Results {
    ghost use Rattle.std.specs.Prelude.{List, map};
    ghost use Rattle.ls_theory.specs.{PupilResult};
    ghost use Rattle.ls_files.specs.ClassResults.{result_of};

    ghost Value = { List PupilResult };

    ghost view = { λ r. map result_of r.results.items };
}

impl Results {
    /// Of no pupil. It takes no memory.
    pub fn new(alloc: Global) -> Results
        ensures { result ≡ [] }
    {
        Results {
            results: Vec::new(alloc),
        }
    }

    /// Puts what is known of a pupil last, unless memory runs out; nothing changes then.
    pub fn push(&mut self, known: ClassResult) -> Result<(), AllocError>
        ensures ok { OnOk result (self.new ≡ self.old ++ result_of known ∷ []) }
        ensures err { OnErr result (self.new ≡ self.old) }
    {
        self.results.push(known)?;
        Ok(())
    }

    /// What is known of each pupil, in order.
    pub fn as_slice(&self) -> &[ClassResult]
        ensures { map result_of result.now ≡ self.now }
    {
        &self.results
    }
}
