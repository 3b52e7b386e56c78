// The text of a session.
ghost use Rattle.std.specs.Prelude.{◌≡◌, ◌≤◌, length, IfOk, OnOk};
ghost use Rattle.serde_json.specs.Data.{no_members, object};
ghost use Rattle.serde_json.specs.View.{members_view, view};
ghost use Rattle.ls_set.specs.{most_items};
ghost use Rattle.ls_files.specs.{session_text};
ghost use Rattle.ls_files.specs.SessionFiles.{session_value};
ghost use Rattle.ls_pupils.specs.Cases.{pupils_of, ArePupils};

use crate::written_pupils::cases_value;
use ls_codecs::{names_value, put_at, put_settings, start_value, write_list};
use ls_domain::Domain;
use ls_expert::Inquiry;
use ls_pupils::PupilCases;
use ls_weight::Settings;
use serde_json::{Map, Value};
use std::alloc::{AllocError, Global};

// Puts the parts of a session into an object that has no members. The version is written as 2.
fn put_parts(
    alloc: Global,
    domain: &Domain,
    inquiry: &Inquiry,
    settings: &Settings,
    pupils: &PupilCases,
    map: &mut Map<String, Value>,
) -> Result<(), AllocError>
    requires pupils { ArePupils inquiry.now.count pupils.now }
    requires empty { members_view map.old.entries ≡ no_members }
    ensures { OnOk result (object (members_view map.new.entries) ≡ session_value (record {
      names = domain.now;
      interview = inquiry.now;
      settings = settings.now;
      pupils = pupils_of pupils.now;
    })) }
{
    let n = inquiry.items();
    let pupils = cases_value(alloc, n, pupils.as_slice())?;
    put_at(alloc, map, "pupils", pupils)?;
    put_at(alloc, map, "next", Value::from(inquiry.next_number()))?;
    let answers = write_list(alloc, n, inquiry.standing())?;
    put_at(alloc, map, "answers", answers)?;
    put_at(alloc, map, "block", Value::from(inquiry.block()))?;
    let start = start_value(alloc, n, inquiry.start())?;
    put_at(alloc, map, "start", start)?;
    put_settings(alloc, n, map, settings)?;
    let items = names_value(alloc, domain)?;
    put_at(alloc, map, "items", items)?;
    put_at(alloc, map, "version", Value::from(2u32))
}

// The object of the session of the parts.
fn session_value(
    alloc: Global,
    domain: &Domain,
    inquiry: &Inquiry,
    settings: &Settings,
    pupils: &PupilCases,
) -> Result<Value, AllocError>
    requires pupils { ArePupils inquiry.now.count pupils.now }
    ensures { IfOk result (λ v. view v ≡ session_value (record {
      names = domain.now;
      interview = inquiry.now;
      settings = settings.now;
      pupils = pupils_of pupils.now;
    })) }
{
    let mut map = Map::new(alloc);
    match put_parts(alloc, domain, inquiry, settings, pupils, &mut map) {
        Ok(()) => Ok(Value::Object(map)),
        Err(e) => {
            drop(map);
            Err(e)
        }
    }
}

/// The text of the session of a domain, the interview on its items, and their settings and pupils.
/// The error is want of memory.
pub fn print_parts(
    alloc: Global,
    domain: &Domain,
    inquiry: &Inquiry,
    settings: &Settings,
    pupils: &PupilCases,
) -> Result<Vec<u8>, AllocError>
    requires items { length domain.now ≡ inquiry.now.count }
    requires settings { length settings.now.ratios ≡ inquiry.now.count }
    requires pupils { ArePupils inquiry.now.count pupils.now }
    ensures { IfOk result (λ v. v.items ≡ session_text (record {
      names = domain.now;
      interview = inquiry.now;
      settings = settings.now;
      pupils = pupils_of pupils.now;
    })) }
{
    let value = session_value(alloc, domain, inquiry, settings, pupils)?;
    let text = value.to_vec(alloc);
    drop(value);
    text
}
