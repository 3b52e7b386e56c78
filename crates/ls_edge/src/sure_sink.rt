// A sink in memory that never fails.
ghost use Rattle.std.specs.Prelude.{◌≡◌, ◌<◌, [], length, min, Some, IfOk, IsErrOf};
ghost use Rattle.std.specs.Io.{WritesAtMost};
ghost use Rattle.std.specs.Io.KnownBytes.{WriteAppends};
ghost use Rattle.ls_edge.specs.Causes.{HasSinkCause};
ghost use Rattle.ls_edge.specs.Memory.{SureSinkState};

use crate::{Sink, SinkFault};
use std::alloc::Global;
use std::marker::Model;

/// A sink in memory that never answers `Failed`, each call of which takes at most a piece.
#[derive(Drop)]
pub struct SureSink {
    bytes: Vec<u8>,
    piece: usize,
}

impl Model for SureSink {
    ghost Value = { SureSinkState };

    ghost view = { λ s. record { written = s.bytes.items; piece = s.piece } };

    ghost invariant = { λ s. 0 < s.piece };
}

impl SureSink {
    /// An empty sink. `piece`, at least 1, is the most bytes that one call takes.
    pub fn new(alloc: Global, piece: usize) -> Self
        requires { 0 < piece }
        ensures { result ≡ record { written = []; piece = piece } }
    {
        SureSink {
            bytes: Vec::new(alloc),
            piece,
        }
    }

    /// The bytes that were written so far.
    pub fn written(&self) -> &[u8]
        ensures { result.now ≡ self.now.written }
    {
        &self.bytes
    }
}

impl Sink for SureSink {
    ghost written = { λ s. Some s.written };

    ghost faults = { λ _. 0 };

    fn write(&mut self, piece: &[u8]) -> Result<usize, SinkFault>
        requires { 0 < length piece.now }
        ensures some { IfOk result (λ n. 0 < n) }
        ensures bound { WritesAtMost result piece.now }
        ensures bytes { WriteAppends (Some self.old.written) (Some self.new.written)
            result piece.now }
        ensures cause { HasSinkCause 0 0 result }
        ensures sure { ¬ IsErrOf result SinkFault.Failed }
        ensures count { IfOk result (λ n. n ≡ min self.old.piece (length piece.now)) }
        ensures kept { self.new.piece ≡ self.old.piece }
    {
        let count = self.piece.min(piece.len());
        self.bytes
            .extend_from_slice(&piece[..count])
            .map_err(SinkFault::Memory)?;
        Ok(count)
    }
}
