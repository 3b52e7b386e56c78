// What the program asks of the outside: where bytes come from, where they go, and where files are
// kept.
ghost use Rattle.std.specs.Prelude.{◌≡◌, ◌<◌, ◌≤◌, ◌↔◌, List, ℕ, Bool, true, length};
ghost use Rattle.std.specs.Prelude.{IfOk, IfErr, IsErrOf};
ghost use Rattle.std.specs.declared.option.Option.{Option};
ghost use Rattle.std.specs.Io.{ReadsAtMost, WritesAtMost};
ghost use Rattle.std.specs.Io.KnownBytes.{ReadConsumes, WriteAppends};

use std::alloc::AllocError;
use thiserror::Error;

/// The most bytes that a fetched file has.
pub const LONGEST_FILE: usize = 16_777_216;

/// The object underneath failed to read.
#[derive(Clone, Copy, Debug, PartialEq, Eq, Error)]
#[error("the read failed")]
pub struct Failed;

/// Why a sink took nothing of a piece.
#[derive(Clone, Copy, Debug, PartialEq, Eq, Error)]
pub enum SinkFault {
    /// The object underneath failed, or took nothing.
    #[error("the write failed")]
    Failed,
    /// Memory ran out.
    #[error("out of memory")]
    Memory(AllocError),
}

/// Why a shelf gave no file.
#[derive(Clone, Copy, Debug, PartialEq, Eq, Error)]
pub enum FetchFault {
    /// No file has that name.
    #[error("no such file")]
    Missing,
    /// The file has this many bytes, more than `LONGEST_FILE`.
    #[error("the file has {bytes} bytes")]
    TooLarge { bytes: u64 },
    /// The object underneath failed.
    #[error("the read failed")]
    Failed,
    /// Memory ran out.
    #[error("out of memory")]
    Memory(AllocError),
}

/// Why a shelf kept no file.
#[derive(Clone, Copy, Debug, PartialEq, Eq, Error)]
pub enum StoreFault {
    /// The object underneath failed.
    #[error("the write failed")]
    Failed,
    /// Memory ran out.
    #[error("out of memory")]
    Memory(AllocError),
}

/// Where bytes come from, piece by piece.
pub trait Source {
    ghost use Rattle.ls_edge.specs.Causes.{HasCause};

    /// The bytes that are left, where they are told.
    ghost left: { Self → Option (List ℕ) };

    /// How often the source has failed.
    ghost faults: { Self → ℕ };

    /// Reads some of the bytes that are left to the front of `buf`, and answers how many. `Ok(0)`
    /// is the end: where the bytes are told, an `Ok` is `Ok(0)` exactly where none is left.
    /// `Failed` takes nothing, and comes only where the count of faults rose; that count never
    /// falls.
    fn read(&mut self, buf: &mut [u8]) -> Result<usize, Failed>
        requires { 0 < length buf.old }
        ensures bound { ReadsAtMost result buf.new }
        ensures bytes { ReadConsumes (left self.old) (left self.new) result buf.new }
        ensures cause { HasCause (faults self.old) (faults self.new) result };
}

/// Where bytes go, piece by piece.
pub trait Sink {
    ghost use Rattle.ls_edge.specs.Causes.{HasSinkCause};

    /// The bytes that were written, where they are told.
    ghost written: { Self → Option (List ℕ) };

    /// How often the sink has failed.
    ghost faults: { Self → ℕ };

    /// Writes a front of `piece`, of at least one byte, and answers how many bytes it took. An
    /// `Err` writes nothing. `Failed` comes only where the count of faults rose; that count never
    /// falls.
    fn write(&mut self, piece: &[u8]) -> Result<usize, SinkFault>
        requires { 0 < length piece.now }
        ensures some { IfOk result (λ n. 0 < n) }
        ensures bound { WritesAtMost result piece.now }
        ensures bytes { WriteAppends (written self.old) (written self.new) result piece.now }
        ensures cause { HasSinkCause (faults self.old) (faults self.new) result };
}

/// Where files are kept, each under a name.
pub trait Shelf {
    ghost use Rattle.ls_edge.specs.Causes.{one_more};
    ghost use Rattle.ls_edge.specs.Files.{longest_file, TellsMore, Folder, Fetches, Stores};
    ghost use Rattle.ls_edge.specs.Files.{FetchCause, StoreCause};

    /// The files, where they are told.
    ghost files: { Self → Option Folder };

    /// How often the shelf has failed.
    ghost faults: { Self → ℕ };

    /// How many calls were made on it, up to the greatest value of a counter.
    ghost calls: { Self → ℕ };

    /// Whether the last call failed.
    ghost failed: { Self → Bool };

    /// The bytes of the file of that name, of which there are at most `LONGEST_FILE`. `TooLarge`
    /// tells more than that. Where the files are told, the answer is `Missing` exactly where none
    /// has the name, and `TooLarge`, with its length in bytes, exactly where it has more; and no
    /// told file changes. `Failed` comes only where the count of faults rose; that count never
    /// falls.
    fn fetch(&mut self, name: &str) -> Result<Vec<u8>, FetchFault>
        ensures short { IfOk result (λ v. length v.items ≤ longest_file) }
        ensures large { IfErr result TellsMore }
        ensures files { Fetches (files self.old) (files self.new) name.now result }
        ensures cause { FetchCause (faults self.old) (faults self.new) result }
        ensures calls { calls self.new ≡ one_more (calls self.old) }
        ensures last { IsErrOf result FetchFault.Failed ↔ (failed self.new ≡ true) };

    /// Keeps these bytes as the file of that name, in place of any that it had. Where the files are
    /// told, all other names keep theirs, and an `Err` changes nothing. `Failed` comes only where
    /// the count of faults rose; that count never falls.
    fn store(&mut self, name: &str, bytes: &[u8]) -> Result<(), StoreFault>
        ensures files { Stores (files self.old) (files self.new) name.now bytes.now result }
        ensures cause { StoreCause (faults self.old) (faults self.new) result }
        ensures calls { calls self.new ≡ one_more (calls self.old) }
        ensures last { IsErrOf result StoreFault.Failed ↔ (failed self.new ≡ true) };
}
