// What a refusal tells.
ghost use Rattle.std.specs.Prelude.{◌≡◌, ◌≤◌, ◌∷◌, [], length, map};
ghost use Rattle.ls_meaning.specs.Told.{told, Word as word, Number as number};
ghost use Rattle.ls_meaning.specs.Notices.{detail_of, notice_of};

use arrayvec::ArrayVec;
use ls_set::ItemSet;

// How many details a refusal has at most.
const MOST_DETAILS: usize = 4;

/// A detail of a refusal: a word, a number, an item by its name, or a set by the names of its
/// items.
#[derive(Clone, Copy)]
pub enum Detail {
    Word(&'static str),
    Number(u64),
    Item(u32),
    Set(ItemSet),
}

impl Default for Detail {
    fn default() -> Detail {
        Detail::Number(0)
    }
}

/// What a refusal tells: its code, and its details.
#[derive(Drop)]
pub struct Notice {
    pub code: u32,
    pub details: ArrayVec<Detail, MOST_DETAILS>,
}

impl Notice {
    pub(crate) fn new(code: u32, details: &[Detail]) -> Notice
        requires { length details.now ≤ MOST_DETAILS }
        ensures { notice_of result ≡ told code (map detail_of details.now) }
    {
        let mut list = ArrayVec::new();
        let _ = list.try_extend_from_slice(details);
        Notice {
            code,
            details: list,
        }
    }

    // A code alone.
    pub(crate) fn bare(code: u32) -> Notice
        ensures { notice_of result ≡ told code [] }
    {
        Notice::new(code, &[])
    }

    // A code and a number.
    pub(crate) fn number(code: u32, n: u64) -> Notice
        ensures { notice_of result ≡ told code (number n ∷ []) }
    {
        Notice::new(code, &[Detail::Number(n)])
    }

    // A code and a word.
    pub(crate) fn word(code: u32, w: &'static str) -> Notice
        ensures { notice_of result ≡ told code (word w.now ∷ []) }
    {
        Notice::new(code, &[Detail::Word(w)])
    }

    // A code, a word and a number.
    pub(crate) fn counted(code: u32, w: &'static str, n: u64) -> Notice
        ensures { notice_of result ≡ told code (word w.now ∷ number n ∷ []) }
    {
        Notice::new(code, &[Detail::Word(w), Detail::Number(n)])
    }
}
