// Lists of two values, of four, and of one kind.
ghost use Rattle.std.specs.Prelude.{◌≡◌, ◌≤◌, IfOk, option_map, option_and_then};
ghost use Rattle.std.specs.List.{All};
ghost use Rattle.serde_json.specs.Find.{as_array};
ghost use Rattle.serde_json.specs.View.{view};
ghost use Rattle.ls_set.specs.{most_items};
ghost use Rattle.ls_files.specs.SurmiseFiles.{list_value, read_list};
ghost use Rattle.ls_files.specs.Codecs.{two_values, four_values};
ghost use Rattle.ls_codecs.specs.Faults.{IsReadAs};

use crate::formats::{FromValue, ToValue};
use crate::part_fault::PartFault;
use ls_files::Version;
use serde_json::Value;
use std::alloc::{AllocError, Global};

// The values of a list of two.
fn two_values(value: &Value) -> Option<(&Value, &Value)>
    ensures { option_map (λ p. (view p.0.now, view p.1.now)) result
        ≡ option_and_then two_values (as_array (view value.now)) }
{
    let values = value.as_array()?;
    if values.len() == 2 {
        Some((&values[0], &values[1]))
    } else {
        None
    }
}

/// The values of a list of four.
pub fn four_values(value: &Value) -> Option<((&Value, &Value), (&Value, &Value))>
    ensures { option_map (λ p. ((view p.0.0.now, view p.0.1.now), (view p.1.0.now, view p.1.1.now)))
        result
        ≡ option_and_then four_values (as_array (view value.now)) }
{
    let values = value.as_array()?;
    if values.len() == 4 {
        Some(((&values[0], &values[1]), (&values[2], &values[3])))
    } else {
        None
    }
}

impl<A: FromValue + Drop, B: FromValue + Drop> FromValue for (A, B) {
    ghost use Rattle.ls_files.specs.Codecs.{read_pair};

    ghost reads = { λ v n d. read_pair (A.reads v n) (B.reads v n) d };

    fn from_value(
        alloc: Global,
        version: Version,
        n: u32,
        value: &Value,
    ) -> Result<(A, B), PartFault> {
        let (first, second) = two_values(value).ok_or(PartFault::Bad)?;
        let first = A::from_value(alloc, version, n, first)?;
        Ok((first, B::from_value(alloc, version, n, second)?))
    }
}

impl<A: ToValue, B: ToValue> ToValue for (A, B) {
    ghost use Rattle.ls_files.specs.Codecs.{pair_value};

    ghost is_fine = { λ n p. A.is_fine n p.0 × B.is_fine n p.1 };

    ghost writes = { λ n p. pair_value (A.writes n p.0) (B.writes n p.1) };

    fn to_value(&self, alloc: Global, n: u32) -> Result<Value, AllocError> {
        let mut values = Vec::new(alloc);
        values.push(self.0.to_value(alloc, n)?)?;
        values.push(self.1.to_value(alloc, n)?)?;
        Ok(Value::Array(values))
    }
}

/// What is read from each value of a list.
pub fn read_list<T: FromValue + Drop>(
    alloc: Global,
    version: Version,
    n: u32,
    value: &Value,
) -> Result<Vec<T>, PartFault>
    requires { n ≤ most_items }
    ensures { IsReadAs (λ l. l.items) (read_list (T.reads version n) (view value.now)) result }
{
    let Some(entries) = value.as_array() else {
        return Err(PartFault::Bad);
    };
    let mut list = Vec::new(alloc);
    for entry in entries {
        list.push(T::from_value(alloc, version, n, entry)?)?;
    }
    Ok(list)
}

/// The list of what is written for each of some values.
pub fn write_list<T: ToValue>(alloc: Global, n: u32, list: &[T]) -> Result<Value, AllocError>
    requires few { n ≤ most_items }
    requires fine { All (T.is_fine n) list.now }
    ensures { IfOk result (λ v. view v ≡ list_value (T.writes n) list.now) }
{
    let mut values = Vec::new(alloc);
    for one in list {
        values.push(one.to_value(alloc, n)?)?;
    }
    Ok(Value::Array(values))
}
