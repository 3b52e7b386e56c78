// The names of the items, written and read.
ghost use Rattle.std.specs.Prelude.{◌≡◌, IfOk};
ghost use Rattle.serde_json.specs.View.{view};
ghost use Rattle.ls_files.specs.Codecs.{lists, texts};
ghost use Rattle.ls_files.specs.SessionCodecs.{names_codec, names_field};
ghost use Rattle.ls_codecs.specs.Faults.{IsRead};

use crate::keys::text_value;
use crate::part_fault::PartFault;
use ls_cutting::{Word, WordList};
use ls_domain::{Domain, DomainFault};
use serde_json::Value;
use std::alloc::{AllocError, Global};

// The texts of a list of them.
fn read_words(alloc: Global, value: &Value) -> Result<WordList, PartFault>
    ensures { IsRead ((lists texts).read (view value.now)) result }
{
    let Some(entries) = value.as_array() else {
        return Err(PartFault::Bad);
    };
    let mut words = WordList::new(alloc);
    for entry in entries {
        let text = entry.as_str().ok_or(PartFault::Bad)?;
        words.push(Word::new(alloc, text)?)?;
    }
    Ok(words)
}

/// The domain of the names of an object.
pub fn read_domain(alloc: Global, object: &Value) -> Result<Domain, PartFault>
    ensures { IsRead (names_field.find_in (view object.now)) result }
{
    let value = object.get("items").ok_or(PartFault::Bad)?;
    match Domain::from_names(alloc, &read_words(alloc, value)?) {
        Ok(domain) => Ok(domain),
        Err(DomainFault::Memory(e)) => Err(PartFault::Memory(e)),
        Err(_) => Err(PartFault::Bad),
    }
}

/// The names of a domain.
pub fn names_value(alloc: Global, domain: &Domain) -> Result<Value, AllocError>
    ensures { IfOk result (λ v. view v ≡ names_codec.write domain.now) }
{
    let mut values = Vec::new(alloc);
    for i in 0..domain.count() {
        values.push(text_value(alloc, domain.name(i))?)?;
    }
    Ok(Value::Array(values))
}
