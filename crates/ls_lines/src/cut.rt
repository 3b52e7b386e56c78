// A line, cut by a form.
ghost use Rattle.std.specs.Prelude.{◌≡◌, ◌≤◌, All, IfOk, IfSome, length};
ghost use Rattle.std.specs.Str.{IsAscii};
ghost use Rattle.ls_lines.specs.Commands.{cut};
ghost use Rattle.ls_lines.specs.Given.{all, one, count, number, is_right};

use crate::reading::front;
use crate::{GREATEST_NUMBER, MOST_COUNTED, Part, Word, WordList};
use arrayvec::ArrayVec;
use ls_cutting::{Token, number_up_to};
use std::alloc::{AllocError, Global};
use std::marker::Model;

/// The most parts that a form has.
const MOST_PARTS: usize = 6;

/// The words at each part of a form, which stay in the line; seen as these lists of words. It takes
/// no memory.
#[derive(Drop)]
pub(crate) struct Cut<'a> {
    alloc: Global,
    parts: ArrayVec<&'a [Token<'a>], MOST_PARTS>,
}

impl<'a> Model for Cut<'a> {
    ghost use Rattle.std.specs.Prelude.{List, ℕ, map};

    ghost Value = { List (List (List ℕ)) };

    ghost view = { λ c. map (λ p. p.now) c.parts.items };
}

impl<'a> Cut<'a> {
    // The words at the parts of a form, if they are a line of it.
    pub(crate) fn new(alloc: Global, form: &[Part], words: &'a [Token<'a>]) -> Option<Cut<'a>>
        requires { length form.now ≤ MOST_PARTS }
        ensures words { result ≡ cut form.now words.now }
        ensures ascii { IfSome result (λ c. All (λ ws. All IsAscii ws) c) }
    {
        let mut parts = ArrayVec::new();
        let mut start = 0;
        for part in form {
            let end = start + front(*part, &words[start..])?;
            parts.push(&words[start..end]);
            start = end;
        }
        if start < words.len() {
            return None;
        }
        Some(Cut { alloc, parts })
    }

    // The words at a part.
    pub(crate) fn all(&self, place: usize) -> Result<WordList, AllocError>
        requires { All (λ ws. All IsAscii ws) self.now }
        ensures { IfOk result (λ l. l ≡ all self.now place) }
    {
        WordList::from_tokens(self.alloc, self.at(place))
    }

    // The one word at a part.
    pub(crate) fn one(&self, place: usize) -> Result<Word, AllocError>
        requires { All (λ ws. All IsAscii ws) self.now }
        ensures { IfOk result (λ w. w ≡ one self.now place) }
    {
        Word::from_ascii(self.alloc, self.word(place))
    }

    // The one words at two parts. Of a function with an arm for each form less is to be proved with
    // this than with two calls of `one`: it has nothing to let go of where memory runs out.
    pub(crate) fn two(&self, first: usize, second: usize) -> Result<(Word, Word), AllocError>
        requires { All (λ ws. All IsAscii ws) self.now }
        ensures { IfOk result (λ p. (p.0 ≡ one self.now first) × (p.1 ≡ one self.now second)) }
    {
        let left = self.one(first)?;
        Ok((left, self.one(second)?))
    }

    // The words at a part, and the one word at another.
    pub(crate) fn all_and_one(
        &self,
        first: usize,
        second: usize,
    ) -> Result<(WordList, Word), AllocError>
        requires { All (λ ws. All IsAscii ws) self.now }
        ensures { IfOk result (λ p. (p.0 ≡ all self.now first) × (p.1 ≡ one self.now second)) }
    {
        let words = self.all(first)?;
        Ok((words, self.one(second)?))
    }

    // The number of the one word at a part, which is a count.
    pub(crate) fn count(&self, place: usize) -> u32
        ensures { result ≡ count self.now place }
    {
        number_up_to(MOST_COUNTED, self.word(place)).unwrap_or(0)
    }

    // The number of the one word at a part.
    pub(crate) fn number(&self, place: usize) -> u32
        ensures { result ≡ number self.now place }
    {
        number_up_to(GREATEST_NUMBER, self.word(place)).unwrap_or(0)
    }

    // Whether the one word at a part is `right`.
    pub(crate) fn is_right(&self, place: usize) -> bool
        ensures { result ≡ is_right self.now place }
    {
        self.word(place) == "right".as_bytes()
    }

    // The words at a part, as they stand in the line.
    fn at(&self, place: usize) -> &[Token<'a>]
        ensures { result.now ≡ all self.now place }
    {
        let parts = self.parts.as_slice();
        if place >= parts.len() {
            return &[];
        }
        parts[place]
    }

    // The bytes of the one word at a part.
    fn word(&self, place: usize) -> &[u8]
        ensures { result.now ≡ one self.now place }
    {
        match self.at(place) {
            [] => &[],
            [word, ..] => word.as_bytes(),
        }
    }
}
