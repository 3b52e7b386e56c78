// The base followed over the Yes answers when it is asked for, with those of some first answers
// kept.
ghost use Rattle.std.specs.Prelude.{◌≡◌, ◌+◌, ◌<◌, ℕ, List, [], true, map, length, take, slice_get};
ghost use Rattle.std.specs.Prelude.{Some, IfSome, OnOk, OnErr};
ghost use Rattle.std.specs.Option.{option_copied};
ghost use Rattle.ls_set.specs.declared.query.Query.{Query};
ghost use Rattle.ls_theory.specs.{Start, base, compat};
ghost use Rattle.ls_base.specs.Followed.{IsAskable};
ghost use Rattle.ls_base.specs.Trail.{IsTrail, EndsAt, AreAskable, last_entry, last_followed};
ghost use Rattle.ls_base.specs.Trail.{followed_count, is_begun, begins_at_none, begun_trail, cut};
ghost use Rattle.ls_base.specs.Trail.{given_up, trail_sets};

use crate::base::Base;
use crate::followed::Followed;
use ls_set::{ItemSet, Query};
use std::alloc::{AllocError, Global};
use std::marker::Model;

/// The most sets that the entries of a trail keep in all.
pub const MOST_KEPT_SETS: usize = 65536;

/// What is followed over each number of first Yes answers from `first` to `last`.
#[derive(Drop)]
pub struct Entry {
    first: usize,
    last: usize,
    followed: Followed,
}

/// The base followed over the first Yes answers of an interview, when it is asked for, with those
/// of fewer first answers, to which a retraction goes back. The first entry, once there is one,
/// stands for no answer; a Yes that changes nothing makes no new one.
///
/// Where the entries keep more than [`MOST_KEPT_SETS`] sets in all, the oldest but the first are
/// let go, until they don't. The first and the last are kept: they have no more than 8,192.
#[derive(Drop)]
pub struct Trail {
    entries: Vec<Entry>,
}

impl Model for Trail {
    ghost use Rattle.std.specs.Prelude.{◌≡◌, List, true};
    ghost use Rattle.ls_base.specs.declared.trail.Entry.{Entry};
    ghost use Rattle.ls_base.specs.Trail.{begins_at_none};

    ghost Value = { List Entry };

    ghost view = { λ t. t.entries.items };

    ghost invariant = { λ t. begins_at_none t.entries.items ≡ true };
}

// How many sets the entry keeps.
fn kept_sets(entry: &Entry) -> usize {
    entry.followed.sets().len()
}

// How many sets the entries keep in all, or the greatest number.
fn all_kept_sets(entries: &[Entry]) -> usize {
    let mut kept = 0usize;
    for entry in entries {
        kept = kept.saturating_add(kept_sets(entry));
    }
    kept
}

// Lets the oldest entries go but the first, while there are too many sets.
fn let_go(entries: &mut Vec<Entry>)
    ensures trail { (n : ℕ) (start : Start) (yeses : List Query) →
        IsTrail n start yeses entries.old.items → IsTrail n start yeses entries.new.items }
    ensures last { last_entry entries.new.items ≡ last_entry entries.old.items }
    ensures begins { begins_at_none entries.new.items ≡ begins_at_none entries.old.items }
    ensures begun { 0 < length entries.old.items → 0 < length entries.new.items }
{
    let mut kept = all_kept_sets(entries);
    while kept > MOST_KEPT_SETS && entries.len() > 2 {
        let oldest = entries.remove(1);
        kept = kept.saturating_sub(kept_sets(&oldest));
    }
}

// Over how many answers the last entry stands, 0 where there is none.
fn followed_count(entries: &[Entry]) -> usize
    ensures { result ≡ followed_count entries.now }
{
    match entries.last() {
        Some(entry) => entry.last,
        None => 0,
    }
}

// Follows one more Yes answer. Where memory runs out, the entries are as they were.
fn follow_next(entries: &mut Vec<Entry>, r: &Query) -> Result<(), AllocError>
    requires begun { 0 < length entries.old.items }
    requires few { followed_count entries.old.items < usize.MAX }
    requires askable { IfSome (last_entry entries.old.items) (λ e. IsAskable e.followed r.now) }
    ensures trail { (n : ℕ) (start : Start) (yeses : List Query) →
        IsTrail n start yeses entries.old.items →
        slice_get yeses (followed_count entries.old.items) ≡ Some r.now →
        IsTrail n start yeses entries.new.items }
    ensures askable { (yeses : List Query) → AreAskable yeses entries.old.items →
        AreAskable yeses entries.new.items }
    ensures begins { begins_at_none entries.new.items ≡ begins_at_none entries.old.items }
    ensures begun { 0 < length entries.new.items }
    ensures reached { OnOk result
        (followed_count entries.new.items ≡ followed_count entries.old.items + 1) }
{
    let place = entries.len() - 1;
    let last = &entries[place];
    let position = last.last + 1;
    if last.followed.is_unchanged(r) {
        entries[place].last = position;
        return Ok(());
    }
    let followed = last.followed.after_yes(position, r)?;
    entries.push(Entry {
        first: position,
        last: position,
        followed,
    })?;
    Ok(())
}

// Follows the Yes answers that are left.
fn follow_over(entries: &mut Vec<Entry>, yeses: &[Query]) -> Result<(), AllocError>
    requires begun { 0 < length entries.old.items }
    requires askable { AreAskable yeses.now entries.old.items }
    ensures trail { (n : ℕ) (start : Start) → IsTrail n start yeses.now entries.old.items →
        IsTrail n start yeses.now entries.new.items }
    ensures followed { OnOk result ((n : ℕ) (start : Start) →
        IsTrail n start yeses.now entries.old.items → EndsAt n start yeses.now entries.new.items) }
    ensures begins { begins_at_none entries.new.items ≡ begins_at_none entries.old.items }
    ensures begun { 0 < length entries.new.items }
{
    for place in followed_count(entries)..yeses.len() {
        follow_next(entries, &yeses[place])?;
        let_go(entries);
    }
    Ok(())
}

// Has the entry stand for no more than `count` answers.
fn cut(entry: &mut Entry, count: usize)
    ensures { entry.new ≡ cut count entry.old }
{
    if count < entry.last {
        entry.last = count;
    }
}

// Has each entry stand for no more than `count` answers.
fn cut_all(entries: &mut [Entry], count: usize)
    ensures { entries.new ≡ map (cut count) entries.old }
{
    for entry in entries.iter_mut() {
        cut(entry, count);
    }
}

// Gives up what stands for more than the first `count` answers.
fn give_up_after(entries: &mut Vec<Entry>, count: usize)
    ensures { entries.new.items ≡ given_up count entries.old.items }
{
    entries.retain(|entry| entry.first <= count);
    cut_all(entries, count);
}

impl Trail {
    /// Nothing is kept. It takes no memory.
    pub fn new(alloc: Global) -> Trail
        ensures { result ≡ [] }
    {
        Trail {
            entries: Vec::new(alloc),
        }
    }

    /// Whether the base before any answer is kept.
    pub fn is_begun(&self) -> bool
        ensures { result ≡ is_begun self.now }
    {
        !self.entries.is_empty()
    }

    /// Keeps the base before any answer. Where memory runs out, nothing is kept.
    pub fn begin(&mut self, first: Base) -> Result<(), AllocError>
        requires { self.old ≡ [] }
        ensures ok { OnOk result (self.new ≡ begun_trail first) }
        ensures trail { (start : Start) (yeses : List Query) →
            first.sets ≡ base (compat first.item_count start []) →
            IsTrail first.item_count start yeses self.new }
        ensures err { OnErr result (self.new ≡ []) }
    {
        self.entries.push(Entry {
            first: 0,
            last: 0,
            followed: Followed::begin(first),
        })?;
        Ok(())
    }

    /// Follows the Yes answers from the last entry on: it then stands for all of them. Where memory
    /// runs out, those that were followed are kept.
    pub fn follow(&mut self, yeses: &[Query]) -> Result<(), AllocError>
        requires begun { is_begun self.old ≡ true }
        requires askable { AreAskable yeses.now self.old }
        ensures trail { (n : ℕ) (start : Start) → IsTrail n start yeses.now self.old →
            IsTrail n start yeses.now self.new }
        ensures followed { OnOk result ((n : ℕ) (start : Start) →
            IsTrail n start yeses.now self.old → EndsAt n start yeses.now self.new) }
        ensures begun { is_begun self.new ≡ true }
    {
        follow_over(&mut self.entries, yeses)
    }

    /// Gives up what stands for more than the first `count` answers: the others may then change.
    pub fn give_up(&mut self, count: usize)
        ensures kept { self.new ≡ given_up count self.old }
        ensures trail { (n : ℕ) (start : Start) (yeses others : List Query) →
            IsTrail n start yeses self.old → take count others ≡ take count yeses →
            IsTrail n start others self.new }
        ensures begun { is_begun self.new ≡ is_begun self.old }
    {
        give_up_after(&mut self.entries, count);
    }

    /// What is followed over the most answers.
    pub fn last(&self) -> Option<&Followed>
        ensures { option_copied result ≡ last_followed self.now }
    {
        match self.entries.last() {
            Some(entry) => Some(&entry.followed),
            None => None,
        }
    }

    /// The sets of the base that is followed over the most answers, in their order; none where it
    /// is past, or nothing is kept.
    pub fn sets(&self) -> &[ItemSet]
        ensures { result.now ≡ trail_sets self.now }
    {
        match self.last() {
            Some(followed) => followed.sets(),
            None => &[],
        }
    }
}
