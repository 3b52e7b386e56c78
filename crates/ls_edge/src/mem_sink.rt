// A sink in memory with calls that fail.
ghost use Rattle.std.specs.Prelude.{◌≡◌, ◌<◌, ◌↔◌, [], length, min, true, Some, IfOk, IsErrOf};
ghost use Rattle.std.specs.Io.{WritesAtMost};
ghost use Rattle.std.specs.Io.KnownBytes.{WriteAppends};
ghost use Rattle.ls_edge.specs.Causes.{HasSinkCause, one_more};
ghost use Rattle.ls_edge.specs.Memory.{SinkState, fails_next, next_faults};

use crate::calls::Calls;
use crate::{Sink, SinkFault, SureSink};
use std::alloc::Global;
use std::marker::Model;

/// A sink in memory, each call of which takes at most a piece, and some calls of which fail.
#[derive(Drop)]
pub struct MemSink {
    sink: SureSink,
    calls: Calls,
}

impl Model for MemSink {
    ghost Value = { SinkState };

    ghost view = { λ s. record {
      written = s.sink.written;
      piece = s.sink.piece;
      fails = s.calls.fails;
      calls = s.calls.calls;
      faults = s.calls.faults;
    } };
}

impl MemSink {
    /// An empty sink. `piece`, at least 1, is the most bytes that one call takes. The calls whose
    /// numbers, counted from 1, are in `fails` fail; a call after number 2^64 - 1 doesn't.
    pub fn new(alloc: Global, piece: usize, fails: Vec<u64>) -> Self
        requires { 0 < piece }
        ensures { result ≡
            record { written = []; piece = piece; fails = fails.items; calls = 0; faults = 0 } }
    {
        MemSink {
            sink: SureSink::new(alloc, piece),
            calls: Calls::new(fails),
        }
    }

    /// The bytes that were written so far.
    pub fn written(&self) -> &[u8]
        ensures { result.now ≡ self.now.written }
    {
        self.sink.written()
    }
}

impl Sink for MemSink {
    ghost written = { λ s. Some s.written };

    ghost faults = { λ s. s.faults };

    fn write(&mut self, piece: &[u8]) -> Result<usize, SinkFault>
        requires { 0 < length piece.now }
        ensures some { IfOk result (λ n. 0 < n) }
        ensures bound { WritesAtMost result piece.now }
        ensures bytes { WriteAppends (Some self.old.written) (Some self.new.written)
            result piece.now }
        ensures cause { HasSinkCause self.old.faults self.new.faults result }

        // Which calls fail, and how many bytes the others take; only memory may refuse them.
        ensures fails { IsErrOf result SinkFault.Failed ↔
            (fails_next self.old.fails self.old.calls ≡ true) }
        ensures count { IfOk result (λ n. n ≡ min self.old.piece (length piece.now)) }

        // The counters, and what stays.
        ensures calls { self.new.calls ≡ one_more self.old.calls }
        ensures faults { self.new.faults ≡
            next_faults self.old.fails self.old.calls self.old.faults }
        ensures kept_piece { self.new.piece ≡ self.old.piece }
        ensures kept_fails { self.new.fails ≡ self.old.fails }
    {
        if self.calls.next_fails() {
            return Err(SinkFault::Failed);
        }
        self.sink.write(piece)
    }
}
