// How many queries were asked, and how many the answers force.
ghost use Rattle.std.specs.Prelude.{◌≡◌, ◌<◌, ◌≤◌, ◌+◌, ◌^◌, true, not, if◌then◌else◌, length};
ghost use Rattle.std.specs.Prelude.{find, count_by};
ghost use Rattle.std.specs.Option.{ForSome};
ghost use Rattle.std.specs.List.{list_any};
ghost use Rattle.ls_set.specs.{is_good};
ghost use Rattle.ls_theory.specs.{comes_after, is_same_query, most_answers, queries, query_before};
ghost use Rattle.ls_query.specs.Blocks.{block_queries};
ghost use Rattle.ls_drill.specs.HiddenOrders.{most_drilled};
ghost use Rattle.ls_drill.specs.Summaries.{is_yes, is_no, is_filled, is_filled_yes, is_filled_no};

use crate::asked::Asked;
use ls_expert::{Inquiry, Known};
use ls_interior::Steps;
use ls_query::Blocks;
use ls_set::{ItemSet, Query};
use ls_theory::Answer;
use std::sync::ledger::Ledger;

/// How many of the answers are Yes.
pub fn count_yes(answers: &[Answer]) -> u32
    requires { length answers.now ≤ most_answers }
    ensures { result ≡ count_by (λ a. a.yes) answers.now }
{
    answers.iter().filter(|a| a.yes).count() as u32
}

/// How many of the answers are No.
pub fn count_no(answers: &[Answer]) -> u32
    requires { length answers.now ≤ most_answers }
    ensures { result ≡ count_by (λ a. not a.yes) answers.now }
{
    answers.iter().filter(|a| !a.yes).count() as u32
}

/// How many queries were not asked, and how many of these the answers force Yes and No.
#[derive(Clone, Copy)]
pub struct Filled {
    pub all: u32,
    pub yes: u32,
    pub no: u32,
}

impl Filled {
    // Counts a query of which that is known.
    fn add(&mut self, known: Known)
        requires all { self.old.all < 2 ^ 16 }
        requires yes { self.old.yes < 2 ^ 16 }
        requires no { self.old.no < 2 ^ 16 }
        ensures all { self.new.all ≡ self.old.all + 1 }
        ensures yes { self.new.yes ≡ self.old.yes + (if is_yes known then 1 else 0) }
        ensures no { self.new.no ≡ self.old.no + (if is_no known then 1 else 0) }
    {
        self.all += 1;
        match known {
            Known::Yes => self.yes += 1,
            Known::No { .. } => self.no += 1,
            Known::Unsettled => {}
        }
    }
}

// The first good query of the blocks that comes after the given one, or the first of all.
fn query_after(blocks: &Blocks, last: Option<Query>) -> Option<Query>
    requires { ForSome last (λ r. is_good blocks.now.item_count r ≡ true) }
    ensures { result ≡ find (comes_after query_before last) (block_queries blocks.now) }
{
    match last {
        Some(query) => blocks.next_query(Some(&query)),
        None => blocks.next_query(None),
    }
}

/// How many queries of single items were not asked, and how many of these the answers force.
pub fn count_filled<L: Ledger>(inquiry: &Inquiry, steps: &mut Steps<L>) -> Filled
    requires single { inquiry.now.block ≡ 1 }
    requires few { inquiry.now.count ≤ most_drilled }
    ensures all { result.all
        ≡ count_by (is_filled inquiry.now) (queries inquiry.now.count inquiry.now.block) }
    ensures yes { result.yes
        ≡ count_by (is_filled_yes inquiry.now) (queries inquiry.now.count inquiry.now.block) }
    ensures no { result.no
        ≡ count_by (is_filled_no inquiry.now) (queries inquiry.now.count inquiry.now.block) }
{
    let n = inquiry.items();
    let blocks = inquiry.blocks();
    let mut filled = Filled {
        all: 0,
        yes: 0,
        no: 0,
    };
    let answers = inquiry.standing();
    let mut asked = Asked::new(answers, ItemSet::empty());
    let mut last = None;
    for _ in 0..n * n {
        let Some(query) = query_after(&blocks, last) else {
            return filled;
        };
        if !asked.has(answers, &query) {
            filled.add(inquiry.known(&query, steps).unwrap());
        }
        last = Some(query);
    }
    filled
}
