// Texts, one after another in one room.
ghost use Rattle.std.specs.Prelude.{◌≡◌, ◌<◌, ◌≤◌, ◌++◌, ◌∷◌, [], length, slice_index_or, take};
ghost use Rattle.std.specs.Prelude.{OnOk};

use std::alloc::{AllocError, Global};
use std::marker::Model;

// Where a text stands: from `start` up to `end`.
#[derive(Clone, Copy)]
struct Place {
    start: usize,
    end: usize,
    ghost ordered: { start ≤ end },
}

/// A list of texts, whose bytes are in one vector. Contracts see it as the list of texts, each as
/// its bytes.
#[derive(Drop)]
pub(crate) struct TextList {
    bytes: Vec<u8>,
    places: Vec<Place>,
}

impl Model for TextList {
    ghost use Rattle.std.specs.Prelude.{List, ℕ, ◌≤◌, length, map, slice_range};
    ghost use Rattle.std.specs.List.{All};

    ghost Value = { List (List ℕ) };

    ghost view = { λ t. map (λ p. slice_range t.bytes.items p.start p.end) t.places.items };

    ghost invariant = { λ t. All (λ p. p.end ≤ length t.bytes.items) t.places.items };
}

impl TextList {
    // No text. It takes no memory.
    pub(crate) fn new(alloc: Global) -> TextList
        ensures { result ≡ [] }
    {
        TextList {
            bytes: Vec::new(alloc),
            places: Vec::new(alloc),
        }
    }

    // Puts a text last.
    pub(crate) fn push(&mut self, text: &[u8]) -> Result<(), AllocError>
        ensures { OnOk result (self.new ≡ self.old ++ text.now ∷ []) }
    {
        let start = self.bytes.len();
        self.bytes.extend_from_slice(text)?;
        let end = self.bytes.len();
        self.places.push(Place { start, end })?;
        Ok(())
    }

    // The bytes from the text at index `k` on, and how many of them are that text.
    pub(crate) fn get_from(&self, k: usize) -> (&[u8], usize)
        requires { k < length self.now }
        ensures text { take result.1 result.0.now ≡ slice_index_or self.now k [] }
        ensures within { result.1 ≤ length result.0.now }
    {
        let place = self.places[k];
        (&self.bytes[place.start..], place.end - place.start)
    }
}
