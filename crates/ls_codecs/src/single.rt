// Single values: numbers, booleans, words and sets.
use crate::formats::{FromValue, ToValue};
use crate::keys::text_value;
use crate::part_fault::PartFault;
use ls_cutting::Word;
use ls_files::Version;
use ls_set::{ItemSet, cursor_length};
use serde_json::Value;
use std::alloc::{AllocError, Global};

// The most digits that a cursor has.
const MOST_DIGITS: usize = 128;

impl FromValue for u64 {
    ghost use Rattle.ls_files.specs.Codecs.{numbers};

    ghost reads = { λ v n d. numbers.read d };

    fn from_value(
        _alloc: Global,
        _version: Version,
        _n: u32,
        value: &Value,
    ) -> Result<u64, PartFault> {
        value.as_u64().ok_or(PartFault::Bad)
    }
}

impl FromValue for bool {
    ghost use Rattle.ls_files.specs.Codecs.{booleans};

    ghost reads = { λ v n d. booleans.read d };

    fn from_value(
        _alloc: Global,
        _version: Version,
        _n: u32,
        value: &Value,
    ) -> Result<bool, PartFault> {
        value.as_bool().ok_or(PartFault::Bad)
    }
}

impl FromValue for Word {
    ghost use Rattle.ls_files.specs.Codecs.{texts};

    ghost reads = { λ v n d. texts.read d };

    fn from_value(
        alloc: Global,
        _version: Version,
        _n: u32,
        value: &Value,
    ) -> Result<Word, PartFault> {
        Ok(Word::new(alloc, value.as_str().ok_or(PartFault::Bad)?)?)
    }
}

// An item.
impl FromValue for u32 {
    ghost use Rattle.ls_files.specs.SessionCodecs.{item_codec};

    ghost reads = { λ v n d. (item_codec n).read d };

    fn from_value(
        _alloc: Global,
        _version: Version,
        n: u32,
        value: &Value,
    ) -> Result<u32, PartFault> {
        match value.as_u64() {
            Some(item) if item < u64::from(n) => Ok(item as u32),
            _ => Err(PartFault::Bad),
        }
    }
}

impl FromValue for ItemSet {
    ghost use Rattle.ls_files.specs.SessionCodecs.{set_codec};

    ghost reads = { λ v n d. (set_codec n).read d };

    fn from_value(
        _alloc: Global,
        _version: Version,
        n: u32,
        value: &Value,
    ) -> Result<ItemSet, PartFault> {
        let cursor = value.as_str().ok_or(PartFault::Bad)?;
        ItemSet::from_cursor(n, cursor.as_bytes())
            .ok()
            .ok_or(PartFault::Bad)
    }
}

impl ToValue for u32 {
    ghost use Rattle.std.specs.Prelude.{⊤};
    ghost use Rattle.ls_files.specs.Codecs.{numbers};

    ghost is_fine = { λ n x. ⊤ };

    ghost writes = { λ n x. numbers.write x };

    fn to_value(&self, _alloc: Global, _n: u32) -> Result<Value, AllocError> {
        Ok(Value::from(*self))
    }
}

impl ToValue for u64 {
    ghost use Rattle.std.specs.Prelude.{⊤};
    ghost use Rattle.ls_files.specs.Codecs.{numbers};

    ghost is_fine = { λ n x. ⊤ };

    ghost writes = { λ n x. numbers.write x };

    fn to_value(&self, _alloc: Global, _n: u32) -> Result<Value, AllocError> {
        Ok(Value::from(*self))
    }
}

impl ToValue for bool {
    ghost use Rattle.std.specs.Prelude.{⊤};
    ghost use Rattle.ls_files.specs.Codecs.{booleans};

    ghost is_fine = { λ n x. ⊤ };

    ghost writes = { λ n x. booleans.write x };

    fn to_value(&self, _alloc: Global, _n: u32) -> Result<Value, AllocError> {
        Ok(Value::from(*self))
    }
}

impl ToValue for ItemSet {
    ghost use Rattle.ls_set.specs.{IsWithin, full};
    ghost use Rattle.ls_files.specs.SessionCodecs.{set_codec};

    ghost is_fine = { λ n s. IsWithin s (full n) };

    ghost writes = { λ n s. (set_codec n).write s };

    fn to_value(&self, alloc: Global, n: u32) -> Result<Value, AllocError> {
        let mut digits = [0; MOST_DIGITS];
        let cursor = &mut digits[..cursor_length(n)];
        self.to_cursor(n, cursor);
        text_value(alloc, str::from_utf8(cursor).unwrap())
    }
}
