// The lines of commands that were carried out.
ghost use Rattle.std.specs.Prelude.{[], ◌∷◌, codes, decimal};
ghost use Rattle.ls_meaning.specs.{line_of};
ghost use Rattle.ls_room.specs.Rooms.{Says};

use ls_edge::Sink;
use ls_room::{Room, put_line, put_numbered};

/// Says the line of a command that was carried out, with the number that it tells.
pub fn put_done<K: Sink>(number: u64, room: &mut Room, out: &mut K)
    ensures { Says (K.written out.old) (K.faults out.old) room.old
        (K.written out.new) (K.faults out.new) room.new
        (line_of (codes "ok" ∷ decimal number ∷ [])) }
{
    put_numbered(&[b"ok"], &[number], room, out);
}

/// Says the line of a command that was carried out and tells no number.
pub fn put_agreed<K: Sink>(room: &mut Room, out: &mut K)
    ensures { Says (K.written out.old) (K.faults out.old) room.old
        (K.written out.new) (K.faults out.new) room.new (line_of (codes "ok" ∷ [])) }
{
    put_line(&[b"ok"], room, out);
}
