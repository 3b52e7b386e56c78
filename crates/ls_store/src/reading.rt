// Reading a session.
ghost use Rattle.std.specs.Prelude.{◌≡◌, ◌<◌, ◌≤◌, length, Ok, Some, IfOk, IfErr};
ghost use Rattle.serde_json.specs.View.{view};
ghost use Rattle.ls_files.specs.{session_from, session_of};
ghost use Rattle.ls_files.specs.SessionCodecs.{names_field, pupils_field, version_field};
ghost use Rattle.ls_files.specs.SessionFiles.{interview_in, settings_in};
ghost use Rattle.ls_pupils.specs.Cases.{pupils_of, ArePupils};
ghost use Rattle.ls_store.specs.Faults.{IsSessionFault, told};
ghost use Rattle.ls_store.specs.Stored.{held_in, session_of_parts};

use crate::fault::SessionFault;
use crate::inquiries::read_inquiry;
use crate::parts::Parts;
use crate::pupils::read_pupils;
use ls_codecs::{
    PartFault, read_block, read_domain, read_limits, read_object, read_odds, read_start,
    read_version,
};
use ls_domain::Domain;
use ls_expert::Inquiry;
use ls_files::{Cause, Version};
use ls_interior::Steps;
use ls_pupils::PupilCases;
use ls_set::PLACES;
use ls_weight::Settings;
use serde_json::Value;
use std::alloc::Global;
use std::sync::ledger::Ledger;

// The part, or the cause that there is none.
fn told<T>(cause: Cause, part: Result<T, PartFault>) -> Result<T, SessionFault>
    ensures { result ≡ told cause part }
{
    match part {
        Ok(found) => Ok(found),
        Err(PartFault::Bad) => Err(SessionFault::BadSession { cause }),
        Err(PartFault::Memory(e)) => Err(SessionFault::Memory(e)),
    }
}

// The settings of `n` items, or the cause why an object has none.
fn session_settings(
    alloc: Global,
    version: Version,
    n: u32,
    object: &Value,
) -> Result<Settings, SessionFault>
    requires { n ≤ PLACES }
    ensures settings { IfOk result (λ s. settings_in version n (view object.now) ≡ Ok s) }
    ensures items { IfOk result (λ s. length s.ratios ≡ n) }
    ensures fault { IfErr result (IsSessionFault (settings_in version n (view object.now))) }
{
    let limits = told(Cause::Limits, read_limits(alloc, version, n, object))?;
    let ratios = told(Cause::Odds, read_odds(alloc, version, n, object))?;
    Ok(Settings::from_ratios(alloc, ratios, limits.0, limits.1))
}

// The interview on `n` items, or the cause why an object has none.
fn session_inquiry<L: Ledger>(
    alloc: Global,
    version: Version,
    n: u32,
    object: &Value,
    steps: &mut Steps<L>,
) -> Result<Inquiry, SessionFault>
    requires some { 0 < n }
    requires few { n ≤ PLACES }
    ensures interview { IfOk result (λ i. interview_in n (view object.now) ≡ Ok i) }
    ensures items { IfOk result (λ i. i.count ≡ n) }
    ensures fault { IfErr result (IsSessionFault (interview_in n (view object.now))) }
{
    let start = told(Cause::Start, read_start(alloc, version, n, object))?;
    let block = told(Cause::Block, read_block(n, object))?;
    let inquiry = read_inquiry(alloc, version, n, start, block, object, steps);
    told(Cause::Answers, inquiry)
}

// The interview on `n` items and the pupils, or the first cause why an object has none.
fn held_on<L: Ledger>(
    alloc: Global,
    version: Version,
    n: u32,
    object: &Value,
    steps: &mut Steps<L>,
) -> Result<(Inquiry, PupilCases), SessionFault>
    requires some { 0 < n }
    requires few { n ≤ PLACES }
    ensures interview { IfOk result (λ p. interview_in n (view object.now) ≡ Ok p.0) }
    ensures read { IfOk result (λ p.
        (pupils_field version n).find_in (view object.now) ≡ Some (pupils_of p.1)) }
    ensures items { IfOk result (λ p. p.0.count ≡ n) }
    ensures pupils { IfOk result (λ p. ArePupils n p.1) }
    ensures fault { IfErr result (IsSessionFault (held_in version n (view object.now))) }
{
    let inquiry = session_inquiry(alloc, version, n, object, steps)?;
    match told(Cause::Pupils, read_pupils(alloc, version, n, object, steps)) {
        Ok(pupils) => Ok((inquiry, pupils)),
        Err(fault) => {
            drop(inquiry);
            Err(fault)
        }
    }
}

// The parts of the session that an object is, whose version, domain and settings are given; or the
// first cause why it is none.
fn parts_after<L: Ledger>(
    alloc: Global,
    version: Version,
    domain: Domain,
    settings: Settings,
    object: &Value,
    steps: &mut Steps<L>,
) -> Result<Parts, SessionFault>
    requires version { version_field.find_in (view object.now) ≡ Some version }
    requires names { names_field.find_in (view object.now) ≡ Some domain }
    requires settings { settings_in version (length domain) (view object.now) ≡ Ok settings }
    requires items { length settings.ratios ≡ length domain }
    ensures session { IfOk result (λ p.
        session_from (view object.now) ≡ Ok (session_of_parts p)) }
    ensures items { IfOk result (λ p. length p.domain ≡ p.inquiry.count) }
    ensures settings { IfOk result (λ p. length p.settings.ratios ≡ p.inquiry.count) }
    ensures pupils { IfOk result (λ p. ArePupils p.inquiry.count p.pupils) }
    ensures fault { IfErr result (IsSessionFault (session_from (view object.now))) }
{
    match held_on(alloc, version, domain.count(), object, steps) {
        Ok((inquiry, pupils)) => Ok(Parts {
            domain,
            inquiry,
            settings,
            pupils,
        }),
        Err(fault) => {
            drop(domain);
            drop(settings);
            Err(fault)
        }
    }
}

// The parts of the session that an object is, or the first cause why it is none.
fn parts_of<L: Ledger>(
    alloc: Global,
    object: &Value,
    steps: &mut Steps<L>,
) -> Result<Parts, SessionFault>
    ensures session { IfOk result (λ p.
        session_from (view object.now) ≡ Ok (session_of_parts p)) }
    ensures items { IfOk result (λ p. length p.domain ≡ p.inquiry.count) }
    ensures settings { IfOk result (λ p. length p.settings.ratios ≡ p.inquiry.count) }
    ensures pupils { IfOk result (λ p. ArePupils p.inquiry.count p.pupils) }
    ensures fault { IfErr result (IsSessionFault (session_from (view object.now))) }
{
    let version = told(Cause::Version, read_version(object))?;
    let domain = told(Cause::Items, read_domain(alloc, object))?;
    match session_settings(alloc, version, domain.count(), object) {
        Ok(settings) => parts_after(alloc, version, domain, settings, object, steps),
        Err(fault) => {
            drop(domain);
            Err(fault)
        }
    }
}

/// The parts of the session that bytes are, or the first cause why they are none.
pub fn read_parts<L: Ledger>(
    alloc: Global,
    bytes: &[u8],
    steps: &mut Steps<L>,
) -> Result<Parts, SessionFault>
    ensures session { IfOk result (λ p. session_of bytes.now ≡ Ok (session_of_parts p)) }
    ensures items { IfOk result (λ p. length p.domain ≡ p.inquiry.count) }
    ensures settings { IfOk result (λ p. length p.settings.ratios ≡ p.inquiry.count) }
    ensures pupils { IfOk result (λ p. ArePupils p.inquiry.count p.pupils) }
    ensures fault { IfErr result (IsSessionFault (session_of bytes.now)) }
{
    match read_object(alloc, bytes)? {
        Some(object) => {
            let parts = parts_of(alloc, &object, steps);
            drop(object);
            parts
        }
        None => Err(SessionFault::BadSession { cause: Cause::Json }),
    }
}
