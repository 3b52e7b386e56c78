// Whether a space is well graded, by its base.
ghost use Rattle.std.specs.Prelude.{◌≡◌, slice_index};
ghost use Rattle.ls_set.specs.{IsInOrder, items};
ghost use Rattle.ls_theory.specs.{base_verdict};
ghost use Rattle.ls_theory.specs.declared.verdict.BaseVerdict.TheVariants.{NotGraded};
ghost use Rattle.ls_laws.specs.Spans.{needed};
ghost use Rattle.ls_base.specs.Bases.{family};
ghost use Rattle.ls_clauses.specs.Verdicts.{graded_by};

use ls_base::{Base, own_items_but, single_items};
use ls_set::ItemSet;
use ls_theory::BaseVerdict;

// The verdict by a set of a base with two items of its own.
fn not_graded(set: ItemSet, own: ItemSet) -> BaseVerdict
    ensures { result
        ≡ NotGraded set (slice_index (items own) 0) (slice_index (items own) 1) }
{
    match own.least() {
        Some(first) => BaseVerdict::NotGraded {
            set,
            first,
            second: own.without(first).least().unwrap_or(0),
        },
        None => BaseVerdict::NotGraded {
            set,
            first: 0,
            second: 0,
        },
    }
}

/// Whether a space is a learning space, by its base: the sets, in their order.
pub fn judge(base: &[ItemSet]) -> BaseVerdict
    requires in_order { IsInOrder base.now }
    requires needed { needed base.now ≡ base.now }
    ensures { result ≡ graded_by base.now base.now }
{
    let singles = single_items(base);
    for place in 0..base.len() {
        let set = base[place];
        let own = own_items_but(&base[place + 1..], set, singles);
        if own.len() > 1 {
            return not_graded(set, own);
        }
    }
    BaseVerdict::Learning
}

/// Whether the family of a base is a learning space: where it isn't, the first set of the base that
/// is an atom at two items, and the two least of them.
pub fn test_base(b: &Base) -> BaseVerdict
    ensures verdict { result ≡ base_verdict (family b.now) }
{
    judge(b.sets())
}
