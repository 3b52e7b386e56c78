// What objects have at their keys.
ghost use Rattle.std.specs.Prelude.{◌≡◌, ◌≤◌, IfOk, OnOk, option_and_then};
ghost use Rattle.serde_json.specs.Data.{put, string};
ghost use Rattle.serde_json.specs.Find.{get};
ghost use Rattle.serde_json.specs.View.{view, members_view};
ghost use Rattle.ls_set.specs.{most_items};
ghost use Rattle.ls_files.specs.SurmiseFiles.{read_list};
ghost use Rattle.ls_codecs.specs.Faults.{IsRead, IsReadAs};

use crate::formats::FromValue;
use crate::lists::read_list;
use crate::part_fault::PartFault;
use ls_files::Version;
use serde_json::{Map, Value};
use std::alloc::{AllocError, Global};

/// What is read from the value at a key.
pub fn read_at<T: FromValue>(
    alloc: Global,
    version: Version,
    n: u32,
    key: &str,
    object: &Value,
) -> Result<T, PartFault>
    requires { n ≤ most_items }
    ensures { IsRead (option_and_then (T.reads version n) (get key.now (view object.now))) result }
{
    match object.get(key) {
        Some(value) => T::from_value(alloc, version, n, value),
        None => Err(PartFault::Bad),
    }
}

/// What is read from each value of the list at a key.
pub fn read_list_at<T: FromValue + Drop>(
    alloc: Global,
    version: Version,
    n: u32,
    key: &str,
    object: &Value,
) -> Result<Vec<T>, PartFault>
    requires { n ≤ most_items }
    ensures { IsReadAs (λ l. l.items)
        (option_and_then (read_list (T.reads version n)) (get key.now (view object.now))) result }
{
    match object.get(key) {
        Some(value) => read_list(alloc, version, n, value),
        None => Err(PartFault::Bad),
    }
}

/// A text as a value.
pub fn text_value(alloc: Global, text: &str) -> Result<Value, AllocError>
    ensures { IfOk result (λ v. view v ≡ string text.now) }
{
    Ok(Value::String(String::from_str(alloc, text)?))
}

/// Puts a value at a key.
pub fn put_at(
    alloc: Global,
    map: &mut Map<String, Value>,
    key: &str,
    value: Value,
) -> Result<(), AllocError>
    ensures { OnOk result (
        members_view map.new.entries ≡ put key.now (view value) (members_view map.old.entries)) }
{
    map.insert(String::from_str(alloc, key)?, value)?;
    Ok(())
}
