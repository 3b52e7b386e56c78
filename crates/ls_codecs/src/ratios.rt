// The version, and settings.
ghost use Rattle.std.specs.Prelude.{◌≡◌, ◌≤◌, OnOk};
ghost use Rattle.serde_json.specs.View.{view, members_view};
ghost use Rattle.ls_set.specs.{most_items};
ghost use Rattle.ls_theory.specs.{are_limits, is_ratio};
ghost use Rattle.ls_files.specs.SessionCodecs.{limits_field, odds_field, ratio_in};
ghost use Rattle.ls_files.specs.SessionCodecs.{settings_fields, settings_parts, version_field};
ghost use Rattle.ls_files.specs.declared.version.Version.TheVariants as version;
ghost use Rattle.ls_codecs.specs.Faults.{IsRead, IsReadAs};

use crate::formats::{FromValue, ToValue};
use crate::keys::put_at;
use crate::lists::{read_list, write_list};
use crate::part_fault::PartFault;
use ls_files::Version;
use ls_theory::{Ratio, Ratios};
use ls_weight::Settings;
use serde_json::{Map, Value};
use std::alloc::{AllocError, Global};

/// The version of an object, which is numbered 1 or 2.
pub fn read_version(object: &Value) -> Result<Version, PartFault>
    ensures { IsRead (version_field.find_in (view object.now)) result }
{
    let value = object.get("version").ok_or(PartFault::Bad)?;
    match value.as_u64() {
        Some(1) => Ok(Version::Odds),
        Some(2) => Ok(Version::Ratios),
        _ => Err(PartFault::Bad),
    }
}

// ---- ratios

// Whether the numbers of a ratio are in their ranges.
fn is_ratio(ratio: Ratio) -> bool
    ensures { result ≡ is_ratio ratio }
{
    (2..=64).contains(&ratio.a) && 1 <= ratio.b && ratio.b < ratio.a
}

// The ratio as the version spells it: by its odds, or by its two numbers.
fn ratio_in(alloc: Global, version: Version, n: u32, value: &Value) -> Result<Ratio, PartFault>
    requires { n ≤ most_items }
    ensures { IsRead ((ratio_in version).read (view value.now)) result }
{
    match version {
        Version::Odds => {
            let a = u64::from_value(alloc, version, n, value)?;
            Ok(Ratio { a, b: 1 })
        }
        Version::Ratios => {
            let (a, b) = <(u64, u64)>::from_value(alloc, version, n, value)?;
            Ok(Ratio { a, b })
        }
    }
}

impl FromValue for Ratio {
    ghost use Rattle.ls_files.specs.SessionCodecs.{ratio_codec};

    ghost reads = { λ v n d. (ratio_codec v).read d };

    fn from_value(
        alloc: Global,
        version: Version,
        n: u32,
        value: &Value,
    ) -> Result<Ratio, PartFault> {
        let ratio = ratio_in(alloc, version, n, value)?;
        if is_ratio(ratio) {
            Ok(ratio)
        } else {
            Err(PartFault::Bad)
        }
    }
}

impl ToValue for Ratio {
    ghost use Rattle.std.specs.Prelude.{⊤};
    ghost use Rattle.ls_files.specs.SessionCodecs.{ratio_codec};
    ghost use Rattle.ls_files.specs.declared.version.Version.TheVariants as version;

    ghost is_fine = { λ n r. ⊤ };

    ghost writes = { λ n r. (ratio_codec version.Ratios).write r };

    fn to_value(&self, alloc: Global, n: u32) -> Result<Value, AllocError> {
        (self.a, self.b).to_value(alloc, n)
    }
}

impl FromValue for Ratios {
    ghost use Rattle.ls_files.specs.SessionCodecs.{ratios_codec};

    ghost reads = { λ v n d. (ratios_codec v).read d };

    fn from_value(
        alloc: Global,
        version: Version,
        n: u32,
        value: &Value,
    ) -> Result<Ratios, PartFault> {
        let (right, wrong) = <(Ratio, Ratio)>::from_value(alloc, version, n, value)?;
        Ok(Ratios { right, wrong })
    }
}

impl ToValue for Ratios {
    ghost use Rattle.std.specs.Prelude.{⊤};
    ghost use Rattle.ls_files.specs.SessionCodecs.{ratios_codec};
    ghost use Rattle.ls_files.specs.declared.version.Version.TheVariants as version;

    ghost is_fine = { λ n r. ⊤ };

    ghost writes = { λ n r. (ratios_codec version.Ratios).write r };

    fn to_value(&self, alloc: Global, n: u32) -> Result<Value, AllocError> {
        (self.right, self.wrong).to_value(alloc, n)
    }
}

// ---- settings

// Whether the most replies and the share are in their ranges.
fn are_limits(budget: u64, share: u64) -> bool
    ensures { result ≡ are_limits budget share }
{
    (1..=40).contains(&budget) && (51..=99).contains(&share)
}

/// The most replies and the share of an object, in their ranges.
pub fn read_limits(
    alloc: Global,
    version: Version,
    n: u32,
    object: &Value,
) -> Result<(u64, u64), PartFault>
    requires { n ≤ most_items }
    ensures { IsRead (limits_field.find_in (view object.now)) result }
{
    let value = object.get("limits").ok_or(PartFault::Bad)?;
    let (budget, share) = <(u64, u64)>::from_value(alloc, version, n, value)?;
    if are_limits(budget, share) {
        Ok((budget, share))
    } else {
        Err(PartFault::Bad)
    }
}

/// The ratios of an object, two for each of `n` items.
pub fn read_odds(
    alloc: Global,
    version: Version,
    n: u32,
    object: &Value,
) -> Result<Vec<Ratios>, PartFault>
    requires { n ≤ most_items }
    ensures { IsReadAs (λ l. l.items) ((odds_field version n).find_in (view object.now)) result }
{
    let value = object.get("odds").ok_or(PartFault::Bad)?;
    let ratios: Vec<Ratios> = read_list(alloc, version, n, value)?;
    if ratios.len() == n as usize {
        Ok(ratios)
    } else {
        Err(PartFault::Bad)
    }
}

/// Puts settings among the members of an object on `n` items.
pub fn put_settings(
    alloc: Global,
    n: u32,
    map: &mut Map<String, Value>,
    settings: &Settings,
) -> Result<(), AllocError>
    requires { n ≤ most_items }
    ensures { OnOk result (members_view map.new.entries
        ≡ (settings_fields version.Ratios n).put_in (settings_parts settings.now)
        (members_view map.old.entries)) }
{
    let limits = (settings.budget(), settings.share()).to_value(alloc, n)?;
    put_at(alloc, map, "limits", limits)?;
    put_at(alloc, map, "odds", write_list(alloc, n, settings.ratios())?)
}
