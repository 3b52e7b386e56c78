// The formats of values: what a value of a text is read as, and what is written.
use crate::part_fault::PartFault;
use ls_files::Version;
use serde_json::Value;
use std::alloc::{AllocError, Global};

/// What is read from values.
pub trait FromValue: Sized {
    ghost use Rattle.std.specs.Prelude.{ℕ, ◌≤◌, Option};
    ghost use Rattle.serde_json.specs.Data.{Data};
    ghost use Rattle.serde_json.specs.View.{view};
    ghost use Rattle.ls_set.specs.{most_items};
    ghost use Rattle.ls_files.specs.declared.version.Version.{Version};
    ghost use Rattle.ls_codecs.specs.Faults.{IsRead};

    ghost reads: { Version → ℕ → Data → Option Self };

    /// What a value of a text of the version is read as, on `n` items; or why there is none.
    fn from_value(alloc: Global, version: Version, n: u32, value: &Value) -> Result<Self, PartFault>
        requires { n ≤ most_items }
        ensures { IsRead (reads version n (view value.now)) result };
}

/// What is written as values.
pub trait ToValue {
    ghost use Rattle.std.specs.Prelude.{◌≡◌, ℕ, ◌≤◌, IfOk};
    ghost use Rattle.serde_json.specs.Data.{Data};
    ghost use Rattle.serde_json.specs.View.{view};
    ghost use Rattle.ls_set.specs.{most_items};

    ghost is_fine: { ℕ → Self → Type 0 };

    ghost writes: { ℕ → Self → Data };

    /// The value that is written for it, on `n` items. The error is want of memory.
    fn to_value(&self, alloc: Global, n: u32) -> Result<Value, AllocError>
        requires few { n ≤ most_items }
        requires fine { is_fine n self.now }
        ensures { IfOk result (λ v. view v ≡ writes n self.now) };
}
