// Words of a script.
ghost use Rattle.std.specs.Prelude.{◌≡◌, IfOk};
ghost use Rattle.std.specs.Str.{IsAscii};

use crate::word_text::WordText;
use std::alloc::{AllocError, Global};
use std::marker::Model;

/// A text of a script, seen as its list of bytes. A short one takes no memory.
#[derive(Drop)]
pub struct Word {
    text: WordText,
}

impl Model for Word {
    ghost use Rattle.std.specs.Prelude.{List, ℕ};
    ghost use Rattle.ls_cutting.specs.WordTexts.{text_bytes};

    ghost Value = { List ℕ };

    ghost view = { λ w. text_bytes w.text };
}

impl Word {
    /// The text as a word.
    pub fn new(alloc: Global, text: &str) -> Result<Word, AllocError>
        ensures { IfOk result (λ w. w ≡ text.now) }
    {
        Ok(Word {
            text: WordText::new(alloc, text)?,
        })
    }

    /// The word's text.
    pub fn as_str(&self) -> &str
        ensures { result.now ≡ self.now }
    {
        self.text.as_str()
    }

    /// The same word once more.
    pub fn copy(&self) -> Result<Word, AllocError>
        ensures { IfOk result (λ w. w ≡ self.now) }
    {
        Ok(Word {
            text: self.text.copy()?,
        })
    }

    /// The bytes as a word.
    pub fn from_ascii(alloc: Global, bytes: &[u8]) -> Result<Word, AllocError>
        requires { IsAscii bytes.now }
        ensures { IfOk result (λ w. w ≡ bytes.now) }
    {
        Word::new(alloc, str::from_utf8(bytes).unwrap())
    }
}
