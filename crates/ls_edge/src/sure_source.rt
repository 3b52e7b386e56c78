// A source in memory that never fails.
ghost use Rattle.std.specs.Prelude.{◌≡◌, ◌<◌, ◌≤◌, length, min, take, drop, Some, IsOk, IfOk};
ghost use Rattle.std.specs.Io.{ReadsAtMost};
ghost use Rattle.std.specs.Io.KnownBytes.{ReadConsumes};
ghost use Rattle.ls_edge.specs.Causes.{HasCause};
ghost use Rattle.ls_edge.specs.Memory.{SureSourceState};

use crate::{Failed, Source};
use std::marker::Model;

/// A source over bytes in memory, each call of which succeeds and moves at most a piece.
#[derive(Drop)]
pub struct SureSource {
    bytes: Vec<u8>,
    at: usize,
    piece: usize,
}

impl Model for SureSource {
    ghost Value = { SureSourceState };

    ghost view = { λ s. record { left = drop s.at s.bytes.items; piece = s.piece } };

    ghost invariant = { λ s. (s.at ≤ length s.bytes.items) × (0 < s.piece) };
}

impl SureSource {
    /// A source of these bytes. `piece`, at least 1, is the most bytes that one call moves.
    pub fn new(bytes: Vec<u8>, piece: usize) -> Self
        requires { 0 < piece }
        ensures { result ≡ record { left = bytes.items; piece = piece } }
    {
        SureSource {
            bytes,
            at: 0,
            piece,
        }
    }
}

// Copies as many bytes as one call moves to the front of `buf`, and answers how many.
fn copy_piece(left: &[u8], piece: usize, buf: &mut [u8]) -> usize
    ensures count { result ≡ min (min piece (length buf.old)) (length left.now) }
    ensures front { take result buf.new ≡ take result left.now }
{
    let count = piece.min(buf.len()).min(left.len());
    buf[..count].copy_from_slice(&left[..count]);
    count
}

impl Source for SureSource {
    ghost left = { λ s. Some s.left };

    ghost faults = { λ _. 0 };

    fn read(&mut self, buf: &mut [u8]) -> Result<usize, Failed>
        requires { 0 < length buf.old }
        ensures bound { ReadsAtMost result buf.new }
        ensures bytes { ReadConsumes (Some self.old.left) (Some self.new.left) result buf.new }
        ensures cause { HasCause 0 0 result }
        ensures sure { IsOk result }
        ensures count { IfOk result (λ n.
            n ≡ min (min self.old.piece (length buf.old)) (length self.old.left)) }
        ensures kept { self.new.piece ≡ self.old.piece }
    {
        let count = copy_piece(&self.bytes[self.at..], self.piece, buf);
        self.at += count;
        Ok(count)
    }
}
