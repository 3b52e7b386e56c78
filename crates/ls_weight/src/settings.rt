// The settings of an assessment.
ghost use Rattle.std.specs.Prelude.{◌≡◌, ◌<◌, ◌≤◌, true, not, length, slice_index_or, is_err, IfOk};
ghost use Rattle.std.specs.Prelude.{OnOk, OnErr};
ghost use Rattle.std.specs.List.{list_all};
ghost use Rattle.ls_theory.specs.Weights.{no_ratios, ratio_for};
ghost use Rattle.ls_theory.specs.Settings.{is_ratio, are_ratios, are_limits, odds, standard};
ghost use Rattle.ls_theory.specs.Settings.{with_all, with_item, with_limits, greatest, heavy_after};
ghost use Rattle.ls_weight.specs.Allowed.{IsAllowed};

use crate::bad_setting::BadSetting;
use ls_set::PLACES;
use ls_theory::{Ratio, Ratios, Reply};
use std::alloc::{AllocError, Global};
use std::marker::Model;

// Settings are not too heavy where a total is at most this number.
const GREATEST_TOTAL: u128 = 1 << 120;

/// The settings of an assessment: the ratios of each item, the most replies, and the share of the
/// total, in hundredths, that ends it. Each is in its range.
#[derive(Drop)]
pub struct Settings {
    alloc: Global,
    ratios: Vec<Ratios>,
    budget: u64,
    share: u64,
}

impl Model for Settings {
    ghost use Rattle.ls_theory.specs.Settings.{Settings as SettingsState};
    ghost use Rattle.ls_weight.specs.Allowed.{IsAllowed};

    ghost Value = { SettingsState };

    ghost view = { λ s. record {
      ratios = s.ratios.items;
      budget = s.budget;
      share = s.share;
    } };

    ghost invariant = { λ s. IsAllowed (record {
      ratios = s.ratios.items;
      budget = s.budget;
      share = s.share;
    }) };
}

// The ratio z to 1.
fn odds(z: u64) -> Ratio
    ensures { result ≡ odds z }
{
    Ratio { a: z, b: 1 }
}

// Whether the ratio is in its range.
fn is_ratio(ratio: Ratio) -> bool
    ensures { result ≡ is_ratio ratio }
{
    (2..=64).contains(&ratio.a) && (1..ratio.a).contains(&ratio.b)
}

// The two ratios, or the error where one of them is out of its range.
fn checked(right: Ratio, wrong: Ratio) -> Result<Ratios, BadSetting>
    ensures ok { IfOk result (λ r. r ≡ record { right = right; wrong = wrong }) }
    ensures allowed { IfOk result (λ r. are_ratios r ≡ true) }
    ensures refused { is_err result ≡ not (are_ratios (record { right = right; wrong = wrong })) }
{
    if is_ratio(right) && is_ratio(wrong) {
        Ok(Ratios { right, wrong })
    } else {
        Err(BadSetting)
    }
}

// The greatest first number of the ratios, and 0 of none.
fn greatest(ratios: &[Ratios]) -> u64
    ensures { result ≡ greatest ratios.now }
{
    ratios
        .iter()
        .map(|r| r.right.a.max(r.wrong.a))
        .max()
        .unwrap_or(0)
}

impl Settings {
    /// The settings of the ratios of each item in turn, the most replies, and the share in
    /// hundredths, each in its range.
    pub fn from_ratios(alloc: Global, ratios: Vec<Ratios>, budget: u64, share: u64) -> Settings
        requires few { length ratios.items ≤ PLACES }
        requires ratios { list_all are_ratios ratios.items ≡ true }
        requires limits { are_limits budget share ≡ true }
        ensures { result ≡ record { ratios = ratios.items; budget = budget; share = share } }
    {
        Settings {
            alloc,
            ratios,
            budget,
            share,
        }
    }

    /// Odds 8 and 8 for each of `n` items, at most 30 replies, and the share 90.
    pub fn standard(alloc: Global, n: u32) -> Result<Settings, AllocError>
        requires { n ≤ PLACES }
        ensures { IfOk result (λ s. s ≡ standard n) }
    {
        let ratios = Ratios {
            right: odds(8),
            wrong: odds(8),
        };
        Ok(Settings {
            alloc,
            ratios: Vec::from_elem(alloc, ratios, n as usize)?,
            budget: 30,
            share: 90,
        })
    }

    /// The same settings once more.
    pub fn copy(&self) -> Result<Settings, AllocError>
        ensures { IfOk result (λ s. s ≡ self.now) }
    {
        Ok(Settings {
            alloc: self.alloc,
            ratios: Vec::from_slice(self.alloc, &self.ratios)?,
            budget: self.budget,
            share: self.share,
        })
    }

    /// Each item gets the odds `right` for a right reply and `wrong` for a wrong one. Where one is
    /// out of its range nothing changes.
    pub fn set_all(&mut self, right: u64, wrong: u64) -> Result<(), BadSetting>
        ensures ok { OnOk result (self.new
            ≡ with_all self.old (record { right = odds right; wrong = odds wrong })) }
        ensures err { OnErr result (self.new ≡ self.old) }
        ensures refused { is_err result
            ≡ not (are_ratios (record { right = odds right; wrong = odds wrong })) }
    {
        self.set_all_ratios(odds(right), odds(wrong))
    }

    /// Each item gets the ratio `right` for a right reply and `wrong` for a wrong one. Where one is
    /// out of its range nothing changes.
    pub fn set_all_ratios(&mut self, right: Ratio, wrong: Ratio) -> Result<(), BadSetting>
        ensures ok { OnOk result (self.new
            ≡ with_all self.old (record { right = right; wrong = wrong })) }
        ensures err { OnErr result (self.new ≡ self.old) }
        ensures refused { is_err result
            ≡ not (are_ratios (record { right = right; wrong = wrong })) }
    {
        let ratios = checked(right, wrong)?;
        self.ratios.fill(ratios);
        Ok(())
    }

    /// The item `q` gets the odds `right` for a right reply and `wrong` for a wrong one. Where one
    /// is out of its range nothing changes.
    pub fn set_item(&mut self, q: u32, right: u64, wrong: u64) -> Result<(), BadSetting>
        requires { q < length self.old.ratios }
        ensures ok { OnOk result (self.new
            ≡ with_item self.old q (record { right = odds right; wrong = odds wrong })) }
        ensures err { OnErr result (self.new ≡ self.old) }
        ensures refused { is_err result
            ≡ not (are_ratios (record { right = odds right; wrong = odds wrong })) }
    {
        self.set_item_ratios(q, odds(right), odds(wrong))
    }

    /// The item `q` gets the ratio `right` for a right reply and `wrong` for a wrong one. Where one
    /// is out of its range nothing changes.
    pub fn set_item_ratios(&mut self, q: u32, right: Ratio, wrong: Ratio) -> Result<(), BadSetting>
        requires { q < length self.old.ratios }
        ensures ok { OnOk result (self.new
            ≡ with_item self.old q (record { right = right; wrong = wrong })) }
        ensures err { OnErr result (self.new ≡ self.old) }
        ensures refused { is_err result
            ≡ not (are_ratios (record { right = right; wrong = wrong })) }
    {
        let ratios = checked(right, wrong)?;
        self.ratios[q as usize] = ratios;
        Ok(())
    }

    /// Sets the most replies, and the share in hundredths. Where one is out of its range nothing
    /// changes.
    pub fn set_limits(&mut self, budget: u64, share: u64) -> Result<(), BadSetting>
        ensures ok { OnOk result (self.new ≡ with_limits self.old budget share) }
        ensures err { OnErr result (self.new ≡ self.old) }
        ensures refused { is_err result ≡ not (are_limits budget share) }
    {
        if !(1..=40).contains(&budget) || !(51..=99).contains(&share) {
            return Err(BadSetting);
        }
        self.budget = budget;
        self.share = share;
        Ok(())
    }

    /// How many items there are.
    pub fn count(&self) -> u32
        ensures value { result ≡ length self.now.ratios }
        ensures allowed { IsAllowed self.now }
    {
        self.ratios.len() as u32
    }

    /// The ratios of each item in turn.
    pub fn ratios(&self) -> &[Ratios]
        ensures { result.now ≡ self.now.ratios }
    {
        &self.ratios
    }

    /// The most replies.
    pub fn budget(&self) -> u64
        ensures { result ≡ self.now.budget }
    {
        self.budget
    }

    /// The share of the total, in hundredths, that ends an assessment.
    pub fn share(&self) -> u64
        ensures { result ≡ self.now.share }
    {
        self.share
    }

    /// The ratio of the item `q` for a right reply.
    pub fn right(&self, q: u32) -> Ratio
        requires { q < length self.now.ratios }
        ensures value { result ≡ (slice_index_or self.now.ratios q no_ratios).right }
        ensures range { is_ratio result ≡ true }
    {
        self.ratios[q as usize].right
    }

    /// The ratio of the item `q` for a wrong reply.
    pub fn wrong(&self, q: u32) -> Ratio
        requires { q < length self.now.ratios }
        ensures value { result ≡ (slice_index_or self.now.ratios q no_ratios).wrong }
        ensures range { is_ratio result ≡ true }
    {
        self.ratios[q as usize].wrong
    }

    /// The ratio by which the reply multiplies the weights.
    pub fn ratio_for(&self, r: Reply) -> Ratio
        requires { r.q < length self.now.ratios }
        ensures value { result ≡ ratio_for self.now.ratios r }
        ensures range { is_ratio result ≡ true }
    {
        if r.right {
            self.right(r.q)
        } else {
            self.wrong(r.q)
        }
    }

    /// The least number of replies, up to the budget, after which the total of the weights of
    /// `count` states may pass 2 ^ 120.
    pub fn heavy_after(&self, count: usize) -> Option<u32>
        ensures { result ≡ heavy_after self.now count }
    {
        let greatest = greatest(&self.ratios);
        let mut total = count as u128;
        for replies in 0..=self.budget as u32 {
            if total > GREATEST_TOTAL {
                return Some(replies);
            }
            total *= greatest as u128;
        }
        None
    }
}
