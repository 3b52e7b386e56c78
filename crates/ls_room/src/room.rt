// The room of a reply.
ghost use Rattle.std.specs.Prelude.{◌≡◌, ◌≤◌, ◌↔◌, ◌+◌, ◌++◌, ◌∷◌, [], None, Some, true};
ghost use Rattle.std.specs.Prelude.{length, is_some, take, IfOk};
ghost use Rattle.ls_room.specs.Rooms.{Says, Sends, Ends, no_reply};

use itoa::{Buffer, Integer};
use ls_edge::{Sink, SinkFault, write_whole};
use std::alloc::{AllocError, Global};
use std::marker::Model;
use std::simd::Simd;

/// How many bytes a room has.
pub const ROOM: usize = 32_768;

// How many bytes are copied at once where a piece has no more. So many stand behind a room.
const BLOCK: usize = 32;

/// A room of fixed size, into which a reply is said before it reaches a sink. Nothing but `new`
/// takes memory. The first fault of a sink is kept until `finish`, and no call of the sink is made
/// after it.
// The first `used` of the bytes are pending.
#[derive(Drop)]
pub struct Room {
    bytes: Vec<u8>,
    used: usize,
    fault: Option<SinkFault>,
}

impl Model for Room {
    ghost use Rattle.std.specs.Prelude.{◌≡◌, ◌≤◌, length, take};
    ghost use Rattle.ls_room.specs.Rooms.{RoomState};

    ghost Value = { RoomState };

    ghost view = { λ s. record { pending = take s.used s.bytes.items; fault = s.fault } };

    ghost invariant = { λ s. (s.used ≤ 32768) × (length s.bytes.items ≡ 32800) };
}

impl Room {
    /// The room before any reply. It takes all its memory here.
    pub fn new(alloc: Global) -> Result<Room, AllocError>
        ensures { IfOk result (λ r. r ≡ no_reply) }
    {
        Ok(Room {
            bytes: vec![in alloc; 0; ROOM + BLOCK]?,
            used: 0,
            fault: None,
        })
    }

    /// Says the bytes. No call of the sink is made where they fit, nor after a fault.
    #[inline(always)]
    pub fn put<K: Sink>(&mut self, bytes: &[u8], out: &mut K)
        ensures held { length self.old.pending + length bytes.now ≤ ROOM → out.new ≡ out.old }
        ensures idle { is_some self.old.fault ≡ true → out.new ≡ out.old }
        ensures kept { length self.old.pending + length bytes.now ≤ ROOM → self.new ≡ record
            self.old { pending = self.old.pending ++ bytes.now } }
        ensures says { Says (K.written out.old) (K.faults out.old) self.old (K.written out.new)
            (K.faults out.new) self.new bytes.now }
    {
        if self.has_space(bytes.len()) {
            self.append(bytes);
        } else {
            self.put_long(bytes, out);
        }
    }

    /// Says the first `count` of the bytes. It takes least where `BLOCK` bytes are there.
    #[inline(always)]
    pub(crate) fn put_front<K: Sink>(&mut self, bytes: &[u8], count: usize, out: &mut K)
        requires { count ≤ length bytes.now }
        ensures { Says (K.written out.old) (K.faults out.old) self.old (K.written out.new)
            (K.faults out.new) self.new (take count bytes.now) }
    {
        if count <= BLOCK && BLOCK <= bytes.len() && self.has_space(count) {
            self.append_front(bytes, count);
        } else {
            self.put(&bytes[..count], out);
        }
    }

    /// Whether the sink has failed since the reply began.
    pub fn has_failed(&self) -> bool
        ensures { result ≡ is_some self.now.fault }
    {
        self.fault.is_some()
    }

    /// Says a space.
    pub fn space<K: Sink>(&mut self, out: &mut K)
        ensures { Says (K.written out.old) (K.faults out.old) self.old (K.written out.new)
            (K.faults out.new) self.new (32 ∷ []) }
    {
        self.put(b" ", out);
    }

    /// Says a line feed.
    pub fn end_line<K: Sink>(&mut self, out: &mut K)
        ensures { Says (K.written out.old) (K.faults out.old) self.old (K.written out.new)
            (K.faults out.new) self.new (10 ∷ []) }
    {
        self.put(b"\n", out);
    }

    /// Says a number in decimal digits.
    pub fn put_number<I: Integer, K: Sink>(&mut self, number: I, out: &mut K)
        ensures { Says (K.written out.old) (K.faults out.old) self.old (K.written out.new)
            (K.faults out.new) self.new (I.text number) }
    {
        let mut buffer = Buffer::new();
        self.put(buffer.format(number).as_bytes(), out);
    }

    /// Sends what is pending, unless there was a fault. Nothing is pending then.
    fn flush<K: Sink>(&mut self, out: &mut K)
        ensures says { Says (K.written out.old) (K.faults out.old) self.old (K.written out.new)
            (K.faults out.new) self.new [] }
        ensures none { self.new.pending ≡ [] }
        ensures idle { is_some self.old.fault ≡ true → out.new ≡ out.old }
    {
        self.fault = send(self.fault, &self.bytes[..self.used], out);
        self.used = 0;
    }

    /// Sends what is pending, and answers the first fault of the reply, if there was one. The room
    /// is as before a reply.
    pub fn finish<K: Sink>(&mut self, out: &mut K) -> Result<(), SinkFault>
        ensures ends { Ends (K.written out.old) (K.faults out.old) self.old (K.written out.new)
            (K.faults out.new) result }
        ensures idle { is_some self.old.fault ≡ true → out.new ≡ out.old }
        ensures empty { self.new ≡ no_reply }
    {
        self.flush(out);
        match self.take_fault() {
            None => Ok(()),
            Some(fault) => Err(fault),
        }
    }

    // The fault, which is forgotten.
    fn take_fault(&mut self) -> Option<SinkFault>
        ensures fault { result ≡ self.old.fault }
        ensures kept { self.new ≡ record self.old { fault = None } }
    {
        let fault = self.fault;
        self.fault = None;
        fault
    }

    // Whether so many bytes more fit.
    fn has_space(&self, count: usize) -> bool
        ensures { (result ≡ true) ↔ (length self.now.pending + count ≤ ROOM) }
    {
        count <= ROOM - self.used
    }

    // Says bytes for which there is space.
    fn append(&mut self, bytes: &[u8])
        requires { length self.old.pending + length bytes.now ≤ ROOM }
        ensures { self.new ≡ record self.old { pending = self.old.pending ++ bytes.now } }
    {
        let end = self.used + bytes.len();
        self.bytes[self.used..end].copy_from_slice(bytes);
        self.used = end;
    }

    // Says the first `count` of the bytes, for which there is space.
    fn append_front(&mut self, bytes: &[u8], count: usize)
        requires block { (count ≤ BLOCK) × (BLOCK ≤ length bytes.now) }
        requires space { length self.old.pending + count ≤ ROOM }
        ensures { self.new ≡
            record self.old { pending = self.old.pending ++ take count bytes.now } }
    {
        let block = Simd::<u8, BLOCK>::from_slice(bytes);
        block.copy_to_slice(&mut self.bytes[self.used..]);
        self.used += count;
    }

    // Says bytes for which there may be no space.
    #[cold]
    fn put_long<K: Sink>(&mut self, bytes: &[u8], out: &mut K)
        ensures says { Says (K.written out.old) (K.faults out.old) self.old (K.written out.new)
            (K.faults out.new) self.new bytes.now }
        ensures idle { is_some self.old.fault ≡ true → out.new ≡ out.old }
    {
        self.flush(out);
        if bytes.len() <= ROOM {
            self.append(bytes);
        } else {
            self.pass(bytes, out);
        }
    }

    // Sends the bytes, past an empty room.
    fn pass<K: Sink>(&mut self, bytes: &[u8], out: &mut K)
        requires { self.old.pending ≡ [] }
        ensures says { Says (K.written out.old) (K.faults out.old) self.old (K.written out.new)
            (K.faults out.new) self.new bytes.now }
        ensures idle { is_some self.old.fault ≡ true → out.new ≡ out.old }
    {
        self.fault = send(self.fault, bytes, out);
    }
}

// Writes the bytes unless there was a fault, and answers the fault that there is then.
fn send<K: Sink>(fault: Option<SinkFault>, bytes: &[u8], out: &mut K) -> Option<SinkFault>
    ensures sends { Sends (K.written out.old) (K.faults out.old) fault (K.written out.new)
        (K.faults out.new) result bytes.now }
    ensures idle { is_some fault ≡ true → out.new ≡ out.old }
{
    if fault.is_some() {
        return fault;
    }
    match write_whole(out, bytes) {
        Ok(()) => None,
        Err(found) => Some(found),
    }
}
