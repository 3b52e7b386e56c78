// Cutting a stream into lines.
ghost use Rattle.std.specs.Prelude.{◌≡◌, ◌<◌, ◌≤◌, ◌+◌, ◌^◌, ◌==◌, ℕ};
ghost use Rattle.std.specs.Prelude.{IfOk, IfSome, IfNone, MatchOption};
ghost use Rattle.std.specs.Prelude.{List, [], ◌∷◌, ◌++◌, length, position, take};
ghost use Rattle.ls_cutting.specs.Lines.{lines};
ghost use Rattle.ls_cutting.specs.Cutting.{Holds, IsTaken, Ends, ahead};

use crate::Ended;
use memchr::memchr;
use std::alloc::{AllocError, Global};
use std::marker::Model;

/// The most bytes of a line that are kept.
pub const LONGEST_LINE: usize = 65_536;

/// Cuts a stream of bytes into its lines, piece by piece; how the stream was cut into pieces is of
/// no account. Contracts see what it keeps: the bytes since the last line end, how many these are,
/// and the line that ended last. Of a line of more than [`LONGEST_LINE`] bytes only their number is
/// kept.
#[derive(Drop)]
pub struct Cutter {
    bytes: Vec<u8>,
    length: u64,
    is_ended: bool,
}

impl Model for Cutter {
    ghost use Rattle.std.specs.Prelude.{[], if◌then◌else◌};
    ghost use Rattle.ls_cutting.specs.Cutting.{CutterState};
    ghost use Rattle.ls_cutting.specs.CutterParts.{IsKept};

    ghost Value = { CutterState };

    ghost view = { λ c. record {
      pending = if c.is_ended then [] else c.bytes.items;
      count = c.length;
      line = if c.is_ended then c.bytes.items else [];
    } };

    ghost invariant = { IsKept };
}

/// The lines of a stream that goes on are those that had ended, and those of what follows, of which
/// the first has the pending bytes ahead of it. It does nothing when it runs.
pub fn lines_go_on()
    ensures { (stream more : List ℕ) (ended : List (List ℕ)) (pending : List ℕ)
        → lines stream ≡ ended ++ pending ∷ []
        → lines (stream ++ more) ≡ ended ++ ahead pending (lines more) }
{}

// Where the first line end is.
fn line_end(piece: &[u8]) -> Option<usize>
    ensures place { result ≡ position (λ b. b == 10) piece.now }
    ensures within { IfSome result (λ i. i < length piece.now) }
{
    memchr(b'\n', piece)
}

impl Cutter {
    /// A cutter of a stream of which nothing was taken yet. It takes room for one line, once for
    /// all.
    pub fn new(alloc: Global) -> Result<Cutter, AllocError>
        ensures { IfOk result (λ c. Holds c []) }
    {
        Ok(Cutter {
            bytes: Vec::with_capacity(alloc, LONGEST_LINE)?,
            length: 0,
            is_ended: false,
        })
    }

    /// Takes bytes of the piece up to and with the first line end, or all of them where there is no
    /// line end, and says how many, and how a line ended, if one did. It takes no memory.
    pub fn take(&mut self, piece: &[u8]) -> (usize, Option<Ended>)
        ensures within { result.0 ≤ length piece.now }
        ensures some { 0 < length piece.now → 0 < result.0 }
        ensures taken { (pending : List ℕ) → Holds self.old pending
            → length pending + length piece.now < 2 ^ 64
            → IsTaken self.new pending piece.now result.0 result.1 }
    {
        match line_end(piece) {
            None => {
                self.hold(piece);
                (piece.len(), None)
            }
            Some(i) => {
                self.hold(&piece[..i]);
                (i + 1, Some(self.end()))
            }
        }
    }

    /// Ends the last line, which has no line end. `None` exactly where no byte is pending, and the
    /// cutter is then as before. It takes no memory.
    pub fn finish(&mut self) -> Option<Ended>
        ensures ended { (pending : List ℕ) → Holds self.old pending → length pending < 2 ^ 64
            → MatchOption result (pending ≡ []) (λ e.
            (0 < length pending) × Ends self.new pending e) }
        ensures kept { IfNone result (self.new ≡ self.old) }
    {
        if self.length == 0 {
            None
        } else {
            Some(self.end())
        }
    }

    /// The line that ended last, after `Whole`; no byte after `Long`, and where no line has ended
    /// since bytes were taken.
    pub fn line(&self) -> &[u8]
        ensures { result.now ≡ self.now.line }
    {
        if self.is_ended { &self.bytes } else { &[] }
    }

    // Puts bytes without a line end behind those that are pending.
    fn hold(&mut self, part: &[u8])
        ensures { (pending : List ℕ) → Holds self.old pending
            → length pending + length part.now < 2 ^ 64
            → Holds self.new (pending ++ part.now) }
    {
        if self.is_ended {
            self.bytes.clear();
            self.is_ended = false;
        }
        self.length = self.length.saturating_add(part.len() as u64);
        if self.length > LONGEST_LINE as u64 {
            self.bytes.clear();
        } else {
            self.bytes.extend_from_slice(part).unwrap();
        }
    }

    // Ends the pending line.
    fn end(&mut self) -> Ended
        ensures { (pending : List ℕ) → Holds self.old pending → Ends self.new pending result }
    {
        let bytes = self.length;
        if self.is_ended {
            self.bytes.clear();
        }
        self.length = 0;
        self.is_ended = true;
        if bytes > LONGEST_LINE as u64 {
            Ended::Long { bytes }
        } else {
            Ended::Whole
        }
    }
}
