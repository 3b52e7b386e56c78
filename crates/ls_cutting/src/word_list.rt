// Lists of words.
ghost use Rattle.std.specs.Prelude.{◌≡◌, ◌==◌, OnOk, OnErr, IfOk};
ghost use Rattle.std.specs.Prelude.{[], ◌∷◌, ◌++◌, All, length};
ghost use Rattle.std.specs.Str.{IsAscii};

use crate::Word;
use crate::token::Token;
use std::alloc::{AllocError, Global};
use std::marker::Model;

/// A list of words.
#[derive(Drop)]
pub struct WordList {
    words: Vec<Word>,
}

impl Model for WordList {
    ghost use Rattle.std.specs.Prelude.{List, ℕ};

    ghost Value = { List (List ℕ) };

    ghost view = { λ l. l.words.items };
}

impl WordList {
    /// No word. It takes no memory.
    pub fn new(alloc: Global) -> WordList
        ensures { result ≡ [] }
    {
        WordList {
            words: Vec::new(alloc),
        }
    }

    /// Puts a word last, unless memory runs out; the list is then unchanged.
    pub fn push(&mut self, w: Word) -> Result<(), AllocError>
        ensures ok { OnOk result (self.new ≡ self.old ++ w ∷ []) }
        ensures err { OnErr result (self.new ≡ self.old) }
    {
        self.words.push(w)?;
        Ok(())
    }

    /// The words, in their order.
    pub fn as_slice(&self) -> &[Word]
        ensures { result.now ≡ self.now }
    {
        &self.words
    }

    /// How many words there are.
    pub fn len(&self) -> usize
        ensures { result ≡ length self.now }
    {
        self.words.len()
    }

    /// Whether there is no word.
    pub fn is_empty(&self) -> bool
        ensures { result ≡ (length self.now == 0) }
    {
        self.words.is_empty()
    }

    /// The same words once more.
    pub fn copy(&self, alloc: Global) -> Result<WordList, AllocError>
        ensures { IfOk result (λ l. l ≡ self.now) }
    {
        let mut words = Vec::with_capacity(alloc, self.len())?;
        for word in self.as_slice() {
            words.push(word.copy()?)?;
        }
        Ok(WordList { words })
    }

    /// The words, copied.
    pub fn from_tokens(alloc: Global, tokens: &[Token]) -> Result<WordList, AllocError>
        requires { All IsAscii tokens.now }
        ensures { IfOk result (λ l. l ≡ tokens.now) }
    {
        let mut words = Vec::with_capacity(alloc, tokens.len())?;
        for token in tokens {
            words.push(Word::from_ascii(alloc, token.as_bytes())?)?;
        }
        Ok(WordList { words })
    }
}
