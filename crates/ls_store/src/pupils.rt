// Reading the pupils of a session.
ghost use Rattle.std.specs.Prelude.{◌≡◌, ◌<◌, ◌≤◌, ◌&&◌, [], false, true, Err, Some, IfOk, OnOk};
ghost use Rattle.std.specs.List.{list_all, list_any};
ghost use Rattle.serde_json.specs.View.{view};
ghost use Rattle.ls_set.specs.{is_good};
ghost use Rattle.ls_theory.specs.{is_same_query};
ghost use Rattle.ls_domain.specs.Domains.{is_name};
ghost use Rattle.ls_files.specs.{Pupil, are_apart};
ghost use Rattle.ls_files.specs.SessionCodecs.{name_field, pupil_codec, pupils_codec};
ghost use Rattle.ls_files.specs.SessionCodecs.{pupils_field, settings_fields, settings_parts};
ghost use Rattle.ls_pupils.specs.Own.{is_called};
ghost use Rattle.ls_pupils.specs.Cases.{case_name, pupil_of_case, pupils_of, IsCase, ArePupils};
ghost use Rattle.ls_codecs.specs.Faults.{IsReadAs};
ghost use Rattle.ls_codecs.specs.declared.part_fault.PartFault.TheVariants.{Bad};

use crate::replaying::pupil_after;
use ls_assess::Reply;
use ls_codecs::{PartFault, are_apart, read_at, read_limits, read_list_at, read_odds, read_start};
use ls_cutting::{Kind, Word};
use ls_files::Version;
use ls_interior::Steps;
use ls_pupils::{MOST_PUPILS, PupilCase, PupilCases};
use ls_set::{PLACES, Query, QueryList};
use ls_weight::Settings;
use serde_json::Value;
use std::alloc::{AllocError, Global};
use std::sync::ledger::Ledger;

// The settings of a pupil.
fn read_settings(
    alloc: Global,
    version: Version,
    n: u32,
    object: &Value,
) -> Result<Settings, PartFault>
    requires { n ≤ PLACES }
    ensures { IsReadAs settings_parts ((settings_fields version n).find_in (view object.now))
        result }
{
    let limits = read_limits(alloc, version, n, object)?;
    let ratios = read_odds(alloc, version, n, object)?;
    Ok(Settings::from_ratios(alloc, ratios, limits.0, limits.1))
}

// Whether all queries are good.
fn are_good(n: u32, queries: &[Query]) -> bool
    requires { n ≤ PLACES }
    ensures { result ≡ list_all (is_good n) queries.now }
{
    queries.iter().all(|query| query.is_good(n))
}

// Whether a pupil can have the name and the Yes queries, on `n` items.
fn can_have(alloc: Global, n: u32, name: &Word, yes: &[Query]) -> Result<bool, AllocError>
    requires { n ≤ PLACES }
    ensures { IfOk result (λ b. b ≡ (is_name name.now && list_all (is_good n) yes.now
        && are_apart is_same_query yes.now)) }
{
    if Kind::Name.takes(name.as_str().as_bytes()) && are_good(n, yes) {
        are_apart(alloc, yes)
    } else {
        Ok(false)
    }
}

// The case of the pupil that an object is, whose name is given.
fn read_case<L: Ledger>(
    alloc: Global,
    version: Version,
    n: u32,
    name: Word,
    object: &Value,
    steps: &mut Steps<L>,
) -> Result<PupilCase, PartFault>
    requires some { 0 < n }
    requires few { n ≤ PLACES }
    requires name { name_field.find_in (view object.now) ≡ Some name }
    ensures value { IsReadAs pupil_of_case ((pupil_codec version n).read (view object.now)) result }
    ensures case { IfOk result (IsCase n) }
{
    let settings = read_settings(alloc, version, n, object)?;
    let yes: QueryList = read_at(alloc, version, n, "yes", object)?;
    let replies: Vec<Reply> = read_list_at(alloc, version, n, "replies", object)?;
    let start = read_start(alloc, version, n, object)?;
    let fits = can_have(alloc, n, &name, yes.as_slice())?;
    if !fits {
        return Err(PartFault::Bad);
    }
    match pupil_after(alloc, n, &start, yes.as_slice(), &settings, &replies, steps)? {
        Some(pupil) => Ok(PupilCase {
            name,
            start,
            yes,
            settings,
            pupil,
        }),
        None => Err(PartFault::Bad),
    }
}

// The case of the pupil that an object is, unless an earlier one has its name.
fn next_case<L: Ledger>(
    alloc: Global,
    version: Version,
    n: u32,
    earlier: &PupilCases,
    object: &Value,
    steps: &mut Steps<L>,
) -> Result<PupilCase, PartFault>
    requires some { 0 < n }
    requires few { n ≤ PLACES }
    ensures value { IfOk result (λ c.
        (pupil_codec version n).read (view object.now) ≡ Some (pupil_of_case c)) }
    ensures case { IfOk result (IsCase n) }
    ensures own { IfOk result (λ c.
        list_any (is_called case_name c.name) earlier.now ≡ false) }
    ensures none { (p : Pupil) → result ≡ Err Bad →
        (pupil_codec version n).read (view object.now) ≡ Some p →
        list_any (is_called case_name p.name) earlier.now ≡ true }
{
    let name: Word = read_at(alloc, version, n, "name", object)?;
    if earlier.place(&name).is_some() {
        return Err(PartFault::Bad);
    }
    read_case(alloc, version, n, name, object, steps)
}

// Puts the pupils of a list into cases of which there are none: there are not too many, and their
// names differ.
fn fill<L: Ledger>(
    alloc: Global,
    version: Version,
    n: u32,
    value: &Value,
    cases: &mut PupilCases,
    steps: &mut Steps<L>,
) -> Result<(), PartFault>
    requires some { 0 < n }
    requires few { n ≤ PLACES }
    requires empty { cases.old ≡ [] }
    ensures value { IsReadAs (λ _. pupils_of cases.new)
        ((pupils_codec version n).read (view value.now)) result }
    ensures cases { OnOk result (ArePupils n cases.new) }
{
    let Some(entries) = value.as_array() else {
        return Err(PartFault::Bad);
    };
    if entries.len() > MOST_PUPILS {
        return Err(PartFault::Bad);
    }
    for entry in entries {
        let case = next_case(alloc, version, n, cases, entry, steps)?;
        cases.push(case)?;
    }
    Ok(())
}

// The pupils of a list.
fn read_cases<L: Ledger>(
    alloc: Global,
    version: Version,
    n: u32,
    value: &Value,
    steps: &mut Steps<L>,
) -> Result<PupilCases, PartFault>
    requires some { 0 < n }
    requires few { n ≤ PLACES }
    ensures value { IsReadAs pupils_of ((pupils_codec version n).read (view value.now)) result }
    ensures cases { IfOk result (ArePupils n) }
{
    let mut cases = PupilCases::new(alloc);
    match fill(alloc, version, n, value, &mut cases, steps) {
        Ok(()) => Ok(cases),
        Err(fault) => {
            drop(cases);
            Err(fault)
        }
    }
}

/// The pupils of an object.
pub fn read_pupils<L: Ledger>(
    alloc: Global,
    version: Version,
    n: u32,
    object: &Value,
    steps: &mut Steps<L>,
) -> Result<PupilCases, PartFault>
    requires some { 0 < n }
    requires few { n ≤ PLACES }
    ensures value { IsReadAs pupils_of ((pupils_field version n).find_in (view object.now)) result }
    ensures cases { IfOk result (ArePupils n) }
{
    match object.get("pupils") {
        Some(value) => read_cases(alloc, version, n, value, steps),
        None => Err(PartFault::Bad),
    }
}
