// The adapters over standard input and standard output. They tell nothing of the bytes.
ghost use Rattle.std.specs.Prelude.{◌≡◌, ◌<◌, ℕ, None, length, is_ok, IfOk, if◌then◌else◌};
ghost use Rattle.std.specs.Io.{ReadsAtMost, WritesAtMost};
ghost use Rattle.std.specs.Io.KnownBytes.{ReadConsumes, WriteAppends};
ghost use Rattle.ls_edge.specs.Causes.{HasCause, HasSinkCause, one_more};

use crate::{Failed, Sink, SinkFault, Source};
use std::io::{Read, Write};
use std::marker::Model;

/// Standard input as a source. It tells nothing of its bytes. Clauses see the count of its faults:
/// each `Err` of the object underneath counts, whatever its reason.
#[derive(Drop)]
pub struct StdSource<R: Input> {
    reader: R::Reader,
    faults: u64,
}

impl<R: Input> Model for StdSource<R> {
    ghost Value = { ℕ };

    ghost view = { λ s. s.faults };
}

impl<R: Input> StdSource<R> {
    /// The source over this runtime's standard input, with no fault so far.
    pub fn new(rt: &R) -> Self
        ensures { result ≡ 0 }
    {
        StdSource {
            reader: rt.reader(),
            faults: 0,
        }
    }
}

impl<R: Input> Source for StdSource<R> {
    ghost left = { λ _. None };

    ghost faults = { λ s. s };

    fn read(&mut self, buf: &mut [u8]) -> Result<usize, Failed>
        requires { 0 < length buf.old }
        ensures bound { ReadsAtMost result buf.new }
        ensures bytes { ReadConsumes None None result buf.new }
        ensures cause { HasCause self.old self.new result }
        ensures counts { self.new ≡ (if is_ok result then self.old else one_more self.old) }
    {
        match self.reader.read(buf) {
            Ok(count) => Ok(count),
            Err(_) => {
                self.faults = self.faults.saturating_add(1);
                Err(Failed)
            }
        }
    }
}

/// Standard output as a sink. It tells nothing of the bytes. Clauses see the count of its faults:
/// each `Err` of the object underneath counts, whatever its reason, and each call in which that
/// object takes nothing of a piece.
#[derive(Drop)]
pub struct StdSink<P: Print + Drop> {
    rt: P,
    faults: u64,
}

impl<P: Print + Drop> Model for StdSink<P> {
    ghost Value = { ℕ };

    ghost view = { λ s. s.faults };
}

impl<P: Print + Drop> StdSink<P> {
    /// The sink over this runtime's standard output, with no fault so far.
    pub fn new(rt: P) -> Self
        ensures { result ≡ 0 }
    {
        StdSink { rt, faults: 0 }
    }
}

impl<P: Print + Drop> Sink for StdSink<P> {
    ghost written = { λ _. None };

    ghost faults = { λ s. s };

    fn write(&mut self, piece: &[u8]) -> Result<usize, SinkFault>
        requires { 0 < length piece.now }
        ensures some { IfOk result (λ n. 0 < n) }
        ensures bound { WritesAtMost result piece.now }
        ensures bytes { WriteAppends None None result piece.now }
        ensures cause { HasSinkCause self.old self.new result }
        ensures counts { self.new ≡ (if is_ok result then self.old else one_more self.old) }
    {
        match self.rt.write_some(piece) {
            Ok(count) if count > 0 => Ok(count),
            _ => {
                self.faults = self.faults.saturating_add(1);
                Err(SinkFault::Failed)
            }
        }
    }
}
