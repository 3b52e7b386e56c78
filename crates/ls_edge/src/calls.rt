// The calls on an object in memory, of which the listed ones fail.
ghost use Rattle.std.specs.Prelude.{◌≡◌, false};
ghost use Rattle.ls_edge.specs.Causes.{one_more};
ghost use Rattle.ls_edge.specs.Memory.{fails_next, next_faults};

use std::marker::Model;

#[derive(Drop)]
pub(crate) struct Calls {
    fails: Vec<u64>,
    made: u64,
    failed: u64,
    last: bool,
}

impl Model for Calls {
    ghost use Rattle.std.specs.Prelude.{◌≤◌};
    ghost use Rattle.ls_edge.specs.Memory.{CallState};

    ghost Value = { CallState };

    ghost view = { λ s. record {
      fails = s.fails.items;
      calls = s.made;
      faults = s.failed;
      last = s.last;
    } };

    ghost invariant = { λ s. s.failed ≤ s.made };
}

impl Calls {
    pub(crate) fn new(fails: Vec<u64>) -> Self
        ensures { result ≡ record { fails = fails.items; calls = 0; faults = 0; last = false } }
    {
        Calls {
            fails,
            made: 0,
            failed: 0,
            last: false,
        }
    }

    // Counts the next call, and says whether it fails.
    pub(crate) fn next_fails(&mut self) -> bool
        ensures fails { result ≡ fails_next self.old.fails self.old.calls }
        ensures calls { self.new.calls ≡ one_more self.old.calls }
        ensures faults { self.new.faults ≡
            next_faults self.old.fails self.old.calls self.old.faults }
        ensures last { self.new.last ≡ result }
        ensures kept { self.new.fails ≡ self.old.fails }
    {
        self.last = false;
        if self.made == u64::MAX {
            return false;
        }
        self.made += 1;
        self.last = self.fails.contains(&self.made);
        if self.last {
            self.failed += 1;
        }
        self.last
    }

    // Counts the next call, which doesn't fail.
    pub(crate) fn pass(&mut self)
        ensures calls { self.new.calls ≡ one_more self.old.calls }
        ensures faults { self.new.faults ≡ self.old.faults }
        ensures last { self.new.last ≡ false }
        ensures kept { self.new.fails ≡ self.old.fails }
    {
        self.made = self.made.saturating_add(1);
        self.last = false;
    }
}
