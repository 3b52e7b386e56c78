// A source in memory with calls that fail.
ghost use Rattle.std.specs.Prelude.{◌≡◌, ◌<◌, ◌↔◌, length, min, true, Some, IfOk, IsErr};
ghost use Rattle.std.specs.Io.{ReadsAtMost};
ghost use Rattle.std.specs.Io.KnownBytes.{ReadConsumes};
ghost use Rattle.ls_edge.specs.Causes.{HasCause, one_more};
ghost use Rattle.ls_edge.specs.Memory.{SourceState, fails_next, next_faults};

use crate::calls::Calls;
use crate::{Failed, Source, SureSource};
use std::marker::Model;

/// A source over bytes in memory, each call of which moves at most a piece, and some calls of which
/// fail.
#[derive(Drop)]
pub struct MemSource {
    source: SureSource,
    calls: Calls,
}

impl Model for MemSource {
    ghost Value = { SourceState };

    ghost view = { λ s. record {
      left = s.source.left;
      piece = s.source.piece;
      fails = s.calls.fails;
      calls = s.calls.calls;
      faults = s.calls.faults;
    } };
}

impl MemSource {
    /// A source of these bytes. `piece`, at least 1, is the most bytes that one call moves. The
    /// calls whose numbers, counted from 1, are in `fails` fail; a call after number 2^64 - 1
    /// doesn't.
    pub fn new(bytes: Vec<u8>, piece: usize, fails: Vec<u64>) -> Self
        requires { 0 < piece }
        ensures { result ≡ record {
          left = bytes.items;
          piece = piece;
          fails = fails.items;
          calls = 0;
          faults = 0;
        } }
    {
        MemSource {
            source: SureSource::new(bytes, piece),
            calls: Calls::new(fails),
        }
    }
}

impl Source for MemSource {
    ghost left = { λ s. Some s.left };

    ghost faults = { λ s. s.faults };

    fn read(&mut self, buf: &mut [u8]) -> Result<usize, Failed>
        requires { 0 < length buf.old }
        ensures bound { ReadsAtMost result buf.new }
        ensures bytes { ReadConsumes (Some self.old.left) (Some self.new.left) result buf.new }
        ensures cause { HasCause self.old.faults self.new.faults result }

        // Which calls fail, and how many bytes the others move.
        ensures fails { IsErr result ↔ (fails_next self.old.fails self.old.calls ≡ true) }
        ensures count { IfOk result (λ n.
            n ≡ min (min self.old.piece (length buf.old)) (length self.old.left)) }

        // The counters, and what stays.
        ensures calls { self.new.calls ≡ one_more self.old.calls }
        ensures faults { self.new.faults ≡
            next_faults self.old.fails self.old.calls self.old.faults }
        ensures kept_piece { self.new.piece ≡ self.old.piece }
        ensures kept_fails { self.new.fails ≡ self.old.fails }
    {
        if self.calls.next_fails() {
            return Err(Failed);
        }
        self.source.read(buf)
    }
}
