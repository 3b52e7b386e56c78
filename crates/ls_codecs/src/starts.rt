// The start of a saved session, written and read.
ghost use Rattle.std.specs.Prelude.{◌≡◌, ◌<◌, ◌≤◌, if◌then◌else◌, ℕ, codes, bytes_eq, Some, None};
ghost use Rattle.std.specs.Prelude.{option_map, IfOk};
ghost use Rattle.std.specs.Cmp.Lexicographic.{pointwise};
ghost use Rattle.serde_json.specs.Data.{object, member, no_members};
ghost use Rattle.serde_json.specs.View.{view};
ghost use Rattle.ls_set.specs.{is_same, most_items};
ghost use Rattle.ls_theory.specs.Starts as theory;
ghost use Rattle.ls_laws.specs.Spans.{AreOn};
ghost use Rattle.ls_clauses.specs.Surmise.{IsSurmise};
ghost use Rattle.ls_standing.specs.Starts.{start_of, IsStartOn};
ghost use Rattle.ls_files.specs.Codecs.{kept_if, lists};
ghost use Rattle.ls_files.specs.SessionCodecs.{base_codec, set_codec, start_codec, start_field};
ghost use Rattle.ls_files.specs.SessionCodecs.{surmise_codec};
ghost use Rattle.ls_files.specs.Standing.{is_base};
ghost use Rattle.ls_codecs.specs.Faults.{IsReadAs};

use crate::formats::FromValue;
use crate::keys::{put_at, text_value};
use crate::lists::{read_list, write_list};
use crate::part_fault::PartFault;
use ls_base::{Base, BaseFault, MOST_BASE_SETS};
use ls_files::Version;
use ls_set::{ItemSet, SetList};
use ls_standing::Start;
use ls_surmise::Surmise;
use ls_theory::SurmiseFault;
use serde_json::{Map, Value};
use std::alloc::{AllocError, Global};

// ---- written

// The cursors of sets.
fn sets_value(alloc: Global, n: u32, sets: &[ItemSet]) -> Result<Value, AllocError>
    requires few { n ≤ most_items }
    requires small { AreOn n sets.now }
    ensures { IfOk result (λ v. view v ≡ (lists (set_codec n)).write sets.now) }
{
    write_list(alloc, n, sets)
}

// The cursors of the clauses of each item in turn.
fn clauses_value(alloc: Global, n: u32, surmise: &Surmise) -> Result<Value, AllocError>
    requires few { n ≤ most_items }
    requires items { surmise.now.item_count ≡ n }
    requires surmise { IsSurmise n surmise.now.clauses }
    ensures { IfOk result (λ v. view v ≡ (surmise_codec n).write surmise.now.clauses) }
{
    let mut values = Vec::new(alloc);
    for q in 0..n {
        values.push(sets_value(alloc, n, surmise.clauses(q))?)?;
    }
    Ok(Value::Array(values))
}

// An object of one member.
fn single_object(alloc: Global, key: &str, value: Value) -> Result<Value, AllocError>
    ensures { IfOk result (λ v. view v ≡ object (member key.now (view value) no_members)) }
{
    let mut map = Map::new(alloc);
    put_at(alloc, &mut map, key, value)?;
    Ok(Value::Object(map))
}

/// A start: the text `free`, or an object of the cursors of its clauses or of its base sets.
pub fn start_value(alloc: Global, n: u32, start: &Start) -> Result<Value, AllocError>
    requires few { n ≤ most_items }
    requires on { IsStartOn n start.now }
    ensures { IfOk result (λ v. view v ≡ (start_codec n).write (start_of start.now)) }
{
    match start {
        Start::Free => text_value(alloc, "free"),
        Start::Clauses(surmise) => {
            let clauses = clauses_value(alloc, n, surmise)?;
            single_object(alloc, "surmise", clauses)
        }
        Start::Sets(base) => {
            let sets = sets_value(alloc, n, base.sets())?;
            single_object(alloc, "base", sets)
        }
    }
}

// ---- read

impl FromValue for SetList {
    ghost use Rattle.ls_files.specs.Codecs.{lists};
    ghost use Rattle.ls_files.specs.SessionCodecs.{set_codec};

    ghost reads = { λ v n d. (lists (set_codec n)).read d };

    fn from_value(
        alloc: Global,
        version: Version,
        n: u32,
        value: &Value,
    ) -> Result<SetList, PartFault> {
        let sets: Vec<ItemSet> = read_list(alloc, version, n, value)?;
        Ok(SetList::from_slice(alloc, &sets)?)
    }
}

// All sets, by their word.
fn free_start(text: &str) -> Result<Start, PartFault>
    ensures value { IsReadAs start_of
        (if bytes_eq text.now (codes "free") then Some theory.Free else None) result }
    ensures on { (n : ℕ) → IfOk result (IsStartOn n) }
{
    if text == "free" {
        Ok(Start::Free)
    } else {
        Err(PartFault::Bad)
    }
}

// Whether the two lists have the same sets in the same order.
#[tactic(auto, unfolding(ls_set::specs::ItemSet::is_same))]
fn are_same(left: &[ItemSet], right: &[ItemSet]) -> bool
    ensures { result ≡ pointwise is_same left.now right.now }
{
    left == right
}

// The start by a base that has the very sets, in their order.
fn base_of(alloc: Global, n: u32, sets: &[ItemSet]) -> Result<Start, PartFault>
    requires few { n ≤ most_items }
    requires within { AreOn n sets.now }
    ensures value { IsReadAs start_of
        (option_map theory.Sets (kept_if (is_base n) (Some sets.now))) result }
    ensures on { IfOk result (IsStartOn n) }
{
    if sets.len() > MOST_BASE_SETS {
        return Err(PartFault::Bad);
    }
    let base = match Base::from_sets(alloc, n, sets) {
        Ok(base) => base,
        Err(BaseFault::Memory(e)) => return Err(PartFault::Memory(e)),
        Err(_) => return Err(PartFault::Bad),
    };
    if are_same(base.sets(), sets) {
        Ok(Start::Sets(base))
    } else {
        Err(PartFault::Bad)
    }
}

// The start by the base whose sets are listed.
fn base_start(alloc: Global, version: Version, n: u32, value: &Value) -> Result<Start, PartFault>
    requires { n ≤ most_items }
    ensures value { IsReadAs start_of
        (option_map theory.Sets ((base_codec n).read (view value.now))) result }
    ensures on { IfOk result (IsStartOn n) }
{
    let sets: Vec<ItemSet> = read_list(alloc, version, n, value)?;
    base_of(alloc, n, &sets)
}

// The start by the surmise function whose clauses are listed, one list for each item.
fn surmise_start(alloc: Global, version: Version, n: u32, value: &Value) -> Result<Start, PartFault>
    requires { n ≤ most_items }
    ensures value { IsReadAs start_of
        (option_map theory.Clauses ((surmise_codec n).read (view value.now))) result }
    ensures on { IfOk result (IsStartOn n) }
{
    let clauses: Vec<SetList> = read_list(alloc, version, n, value)?;
    if clauses.len() != n as usize {
        return Err(PartFault::Bad);
    }
    match Surmise::from_clauses(alloc, n, &clauses) {
        Ok(surmise) => Ok(Start::Clauses(surmise)),
        Err(SurmiseFault::Memory(e)) => Err(PartFault::Memory(e)),
        Err(_) => Err(PartFault::Bad),
    }
}

/// The start of an object, where it is one on `n` items: the word `free`, or an object with a base
/// or the clauses of a surmise function. Where it has both, it is the base.
pub fn read_start(
    alloc: Global,
    version: Version,
    n: u32,
    object: &Value,
) -> Result<Start, PartFault>
    requires some { 0 < n }
    requires few { n ≤ most_items }
    ensures value { IsReadAs start_of ((start_field n).find_in (view object.now)) result }
    ensures on { IfOk result (IsStartOn n) }
{
    let value = object.get("start").ok_or(PartFault::Bad)?;
    if let Some(text) = value.as_str() {
        return free_start(text);
    }
    if let Some(sets) = value.get("base") {
        return base_start(alloc, version, n, sets);
    }
    match value.get("surmise") {
        Some(clauses) => surmise_start(alloc, version, n, clauses),
        None => Err(PartFault::Bad),
    }
}
