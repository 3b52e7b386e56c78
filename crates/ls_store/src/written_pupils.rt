// Pupils, written.
ghost use Rattle.std.specs.Prelude.{◌≡◌, ◌≤◌, [], map, IfOk, OnOk};
ghost use Rattle.std.specs.List.{All};
ghost use Rattle.serde_json.specs.Data.{no_members, object};
ghost use Rattle.serde_json.specs.View.{members_view, view};
ghost use Rattle.ls_set.specs.{most_items};
ghost use Rattle.ls_files.specs.SessionCodecs.{pupil_codec};
ghost use Rattle.ls_files.specs.SurmiseFiles.{list_value};
ghost use Rattle.ls_files.specs.declared.version.Version.TheVariants as version;
ghost use Rattle.ls_pupils.specs.Cases.{pupil_of_case, IsCase};

use ls_codecs::{put_at, put_settings, start_value, text_value, write_list};
use ls_pupils::PupilCase;
use serde_json::{Map, Value};
use std::alloc::{AllocError, Global};

// Puts the parts of a pupil into an object that has no members.
fn put_case(
    alloc: Global,
    n: u32,
    case: &PupilCase,
    map: &mut Map<String, Value>,
) -> Result<(), AllocError>
    requires few { n ≤ most_items }
    requires fine { IsCase n case.now }
    requires empty { members_view map.old.entries ≡ no_members }
    ensures { OnOk result (object (members_view map.new.entries)
        ≡ (pupil_codec version.Ratios n).write (pupil_of_case case.now)) }
{
    let replies = write_list(alloc, n, case.pupil.replies())?;
    put_at(alloc, map, "replies", replies)?;
    let yes = write_list(alloc, n, case.yes.as_slice())?;
    put_at(alloc, map, "yes", yes)?;
    let start = start_value(alloc, n, &case.start)?;
    put_at(alloc, map, "start", start)?;
    put_settings(alloc, n, map, &case.settings)?;
    let name = text_value(alloc, case.name.as_str())?;
    put_at(alloc, map, "name", name)
}

// The object of a pupil.
fn case_value(alloc: Global, n: u32, case: &PupilCase) -> Result<Value, AllocError>
    requires few { n ≤ most_items }
    requires fine { IsCase n case.now }
    ensures { IfOk result (λ v.
        view v ≡ (pupil_codec version.Ratios n).write (pupil_of_case case.now)) }
{
    let mut map = Map::new(alloc);
    match put_case(alloc, n, case, &mut map) {
        Ok(()) => Ok(Value::Object(map)),
        Err(e) => {
            drop(map);
            Err(e)
        }
    }
}

// Pushes the objects of pupils.
fn push_cases(
    alloc: Global,
    n: u32,
    cases: &[PupilCase],
    values: &mut Vec<Value>,
) -> Result<(), AllocError>
    requires few { n ≤ most_items }
    requires fine { All (IsCase n) cases.now }
    requires empty { values.old.items ≡ [] }
    ensures { OnOk result (map view values.new.items ≡ map (λ c.
        (pupil_codec version.Ratios n).write (pupil_of_case c)) cases.now) }
{
    for case in cases {
        values.push(case_value(alloc, n, case)?)?;
    }
    Ok(())
}

/// The list of the objects of pupils.
pub fn cases_value(alloc: Global, n: u32, cases: &[PupilCase]) -> Result<Value, AllocError>
    requires few { n ≤ most_items }
    requires fine { All (IsCase n) cases.now }
    ensures { IfOk result (λ v. view v ≡ list_value (λ c.
        (pupil_codec version.Ratios n).write (pupil_of_case c)) cases.now) }
{
    let mut values = Vec::new(alloc);
    match push_cases(alloc, n, cases, &mut values) {
        Ok(()) => Ok(Value::Array(values)),
        Err(e) => {
            drop(values);
            Err(e)
        }
    }
}
