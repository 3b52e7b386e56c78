// The line of a learning path, and the front that successive paths share, with its text.
ghost use Rattle.std.specs.Prelude.{◌≡◌, ◌<◌, ◌≤◌, ◌++◌, ◌∷◌, [], true, false, length, take};
ghost use Rattle.std.specs.Prelude.{IfSome};
ghost use Rattle.std.specs.List.{All};
ghost use Rattle.ls_meaning.specs.{line_bytes, path_line};
ghost use Rattle.ls_room.specs.Rooms.{Says};
ghost use Rattle.ls_write.specs.Paths.{IsTextOf, no_front};

use arrayvec::ArrayVec;
use ls_edge::Sink;
use ls_room::{Room, SetTexts};
use ls_set::PLACES;
use std::marker::Model;

// How many items a front has at most.
const MOST_ITEMS: usize = PLACES as usize;

// How many bytes the text of a front has at most.
const MOST_BYTES: usize = 4096;

// How many items of a path stand behind its front: the last ones are what differs between most
// successive paths.
const BEHIND: usize = 4;

/// The first items of a learning path, with the text of their names, each behind a space. It takes
/// no memory.
#[derive(Drop)]
pub struct PathText {
    items: ArrayVec<u32, MOST_ITEMS>,
    bytes: ArrayVec<u8, MOST_BYTES>,
}

impl Model for PathText {
    ghost use Rattle.ls_write.specs.Paths.{PathFront};

    ghost Value = { PathFront };

    ghost view = { λ t. record { front = t.items.items; text = t.bytes.items } };
}

impl PathText {
    /// No item, and no text.
    pub fn new() -> PathText
        ensures { result ≡ no_front }
    {
        PathText {
            items: ArrayVec::new(),
            bytes: ArrayVec::new(),
        }
    }

    // The text.
    fn text(&self) -> &[u8]
        ensures { result.now ≡ self.now.text }
    {
        self.bytes.as_slice()
    }

    // The items behind the front of an order that starts with it. An empty front is none.
    fn rest<'a>(&self, order: &'a [u32]) -> Option<&'a [u32]>
        ensures { IfSome result (λ r. self.now.front ++ r.now ≡ order.now) }
    {
        if self.items.is_empty() {
            return None;
        }
        order.strip_prefix(self.items.as_slice())
    }

    // Takes the items of an order but for its last ones, as far as they and their text fit. Answers
    // how many it took.
    #[cold]
    fn fill(&mut self, texts: &SetTexts, order: &[u32]) -> usize
        requires { All (λ i. i < length texts.now) order.now }
        ensures within { result ≤ length order.now }
        ensures front { self.new.front ≡ take result order.now }
        ensures text { IsTextOf texts.now self.new }
    {
        self.clear();
        let most = order.len().saturating_sub(BEHIND);
        for place in 0..most {
            let item = order[place];
            if !self.push(item, texts.name_text(item)) {
                return place;
            }
        }
        most
    }

    // Takes nothing.
    fn clear(&mut self)
        ensures { self.new ≡ no_front }
    {
        self.items.clear();
        self.bytes.clear();
    }

    // Takes one more item with its text, and says whether it fits. If not, nothing changes.
    fn push(&mut self, item: u32, text: &[u8]) -> bool
        ensures pushed { result ≡ true → self.new ≡ record {
          front = self.old.front ++ item ∷ [];
          text = self.old.text ++ text.now;
        } }
        ensures kept { result ≡ false → self.new ≡ self.old }
    {
        if self.items.is_full() || self.bytes.try_extend_from_slice(text).is_err() {
            return false;
        }
        self.items.push(item);
        true
    }
}

/// Says a learning path: the items in an order. The text of a front that it shares with the path
/// said before is taken from there.
pub fn put_path<K: Sink>(
    texts: &SetTexts,
    order: &[u32],
    shared: &mut PathText,
    room: &mut Room,
    out: &mut K,
)
    requires order { All (λ i. i < length texts.now) order.now }
    requires shared { IsTextOf texts.now shared.old }
    ensures says { Says (K.written out.old) (K.faults out.old) room.old (K.written out.new)
        (K.faults out.new) room.new (line_bytes (path_line texts.now order.now)) }
    ensures shared { IsTextOf texts.now shared.new }
{
    let rest = share(texts, order, shared);
    room.put(b"path", out);
    room.put(shared.text(), out);
    for item in rest {
        room.put(texts.name_text(*item), out);
    }
    room.end_line(out);
}

// Shares the text of a front of the order, and answers the items behind that front.
fn share<'a>(texts: &SetTexts, order: &'a [u32], shared: &mut PathText) -> &'a [u32]
    requires order { All (λ i. i < length texts.now) order.now }
    requires shared { IsTextOf texts.now shared.old }
    ensures parts { shared.new.front ++ result.now ≡ order.now }
    ensures text { IsTextOf texts.now shared.new }
{
    match shared.rest(order) {
        Some(rest) => rest,
        None => {
            let taken = shared.fill(texts, order);
            &order[taken..]
        }
    }
}
