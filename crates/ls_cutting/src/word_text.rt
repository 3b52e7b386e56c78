// The text of a word.
ghost use Rattle.std.specs.Prelude.{◌≡◌, IfOk};
ghost use Rattle.ls_cutting.specs.WordTexts.{text_bytes};

use arrayvec::ArrayString;
use std::alloc::{AllocError, Global};

// How many bytes a short text has at most.
const SHORT: usize = 24;

// The text of a word. A short one takes no memory.
#[derive(Drop)]
pub(crate) enum WordText {
    Short(ArrayString<SHORT>),
    Long(String),
}

impl WordText {
    // The text, copied.
    pub(crate) fn new(alloc: Global, text: &str) -> Result<WordText, AllocError>
        ensures { IfOk result (λ t. text_bytes t ≡ text.now) }
    {
        match ArrayString::from(text) {
            Ok(short) => Ok(WordText::Short(short)),
            Err(_) => Ok(WordText::Long(String::from_str(alloc, text)?)),
        }
    }

    // The text.
    pub(crate) fn as_str(&self) -> &str
        ensures { result.now ≡ text_bytes self.now }
    {
        match self {
            WordText::Short(text) => text.as_str(),
            WordText::Long(text) => text.as_str(),
        }
    }

    // The same text once more.
    pub(crate) fn copy(&self) -> Result<WordText, AllocError>
        ensures { IfOk result (λ t. text_bytes t ≡ text_bytes self.now) }
    {
        match self {
            WordText::Short(text) => Ok(WordText::Short(*text)),
            WordText::Long(text) => Ok(WordText::Long(text.clone()?)),
        }
    }
}
