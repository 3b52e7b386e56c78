// Trials of answers, and which are not made: those of answers that are seen to wait without one.
ghost use Rattle.std.specs.Prelude.{◌≡◌, ◌<◌, ◌∷◌, [], None, true, false, filter, length};
ghost use Rattle.std.specs.Prelude.{IfOk, IfErr, OnOk};
ghost use Rattle.ls_set.specs.ItemSet.{full};
ghost use Rattle.ls_set.specs.Query.{is_good};
ghost use Rattle.ls_theory.specs.Bases.{base, most_base_sets};
ghost use Rattle.ls_theory.specs.Queries.{breaks};
ghost use Rattle.ls_theory.specs.Verdict.{is_learning_space};
ghost use Rattle.ls_base.specs.Bases.{family};
ghost use Rattle.ls_origins.specs.Safe.{trial};
ghost use Rattle.ls_safe.specs.Turns.{is_over, is_past};
ghost use Rattle.ls_safe.specs.Interviews.{IsSafeFaultOf, IsTried, IsWitness, past_fault};

use ls_base::{Base, MOST_BASE_SETS, PastFault};
use ls_interior::is_member;
use ls_origins::{SafeAnswer, SafeFault};
use ls_set::{ItemSet, PLACES, Query};
use ls_space::{BaseVerdict, test_base};

/// What the trial of an answer comes to.
#[derive(Drop)]
pub enum Tried {
    /// The answer is applied, and the family stays as it is.
    Same,
    /// The answer is applied, and this is the base of what it leaves.
    Left(Base),
    /// The answer waits: this set of the base of its trial is an atom at two items.
    Waits(ItemSet),
}

// The base of the trial of a query, unless it is too large.
fn trial_base(b: &Base, query: &Query) -> Result<Base, SafeFault>
    requires good { is_good b.now.item_count query.now ≡ true }
    ensures items { IfOk result (λ t. t.item_count ≡ b.now.item_count) }
    ensures sets { IfOk result (λ t. t.sets ≡ base (trial query.now (family b.now))) }
    ensures few { OnOk result (past_fault (trial query.now (family b.now) ∷ []) ≡ None) }
    ensures past { IfErr result (IsSafeFaultOf
        (past_fault (trial query.now (family b.now) ∷ []))) }
{
    match b.after_yes(query) {
        Ok(trial) => Ok(trial),
        Err(PastFault::Past { count }) => Err(SafeFault::Past { count }),
        Err(PastFault::Memory(e)) => Err(SafeFault::Memory(e)),
    }
}

/// The trial of an answer to the query. Where no set of the base breaks it, the family is what it
/// leaves, and no other base is formed.
pub fn try_query(b: &Base, query: &Query) -> Result<Tried, SafeFault>
    requires learning { is_learning_space (full b.now.item_count) (family b.now) ≡ true }
    requires good { is_good b.now.item_count query.now ≡ true }
    ensures tried { IfOk result (IsTried b.now query.now) }
    ensures few { OnOk result (past_fault (trial query.now (family b.now) ∷ []) ≡ None) }
    ensures past { IfErr result (IsSafeFaultOf
        (past_fault (trial query.now (family b.now) ∷ []))) }
{
    if b.is_unchanged(query) {
        return Ok(Tried::Same);
    }
    let trial = trial_base(b, query)?;
    match test_base(&trial) {
        BaseVerdict::Learning => Ok(Tried::Left(trial)),
        BaseVerdict::NotGraded { set, .. } => Ok(Tried::Waits(set)),
    }
}

// Whether the set has no item of the query's A, and has its q.
#[tactic(auto, unfolding(ls_set::specs::ItemSet::is_same))]
fn breaks(set: ItemSet, r: &Query) -> bool
    requires { r.now.q < PLACES }
    ensures { result ≡ breaks set r.now }
{
    set.meet(r.a) == ItemSet::empty() && set.has(r.q)
}

// How many of the sets break the query.
fn count_breaking(sets: &[ItemSet], r: &Query) -> usize
    requires { r.now.q < PLACES }
    ensures { result ≡ length (filter (λ k. breaks k r.now) sets.now) }
{
    sets.iter().filter(|set| breaks(**set, r)).count()
}

// Whether the base of the trial of the query is seen not to be too large, with no such base formed:
// by how many sets stay, and how many unions there can be of a set that breaks the query and one
// of those that lie lowest among the sets with an item of its A. Without memory for these it isn't.
fn has_few_sets(b: &Base, r: &Query) -> bool
    requires { is_good b.now.item_count r.now ≡ true }
    ensures { result ≡ true → is_past most_base_sets (trial r.now (family b.now)) ≡ false }
{
    let sets = b.sets();
    let breaking = count_breaking(sets, r);
    let staying = sets.len() - breaking;
    match b.lowest_touching(r.a) {
        Ok(lowest) => staying + breaking * lowest.len() <= MOST_BASE_SETS,
        Err(_) => false,
    }
}

/// Whether the answer is applied, or is seen to wait without a trial: its witness is a member, and
/// the base of its trial has few sets.
pub fn is_over(b: &Base, answer: &SafeAnswer, witness: ItemSet) -> bool
    requires good { is_good b.now.item_count answer.now.query ≡ true }
    requires witness { answer.now.applied ≡ false →
        IsWitness b.now.item_count (family b.now) answer.now.query witness }
    ensures over { result ≡ true → is_over b.now.item_count (family b.now) answer.now ≡ true }
    ensures waits { result ≡ false → answer.now.applied ≡ false }
{
    answer.applied || (is_member(b, witness) && has_few_sets(b, &answer.query))
}
