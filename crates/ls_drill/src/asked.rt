// Which queries of a set were asked.
ghost use Rattle.std.specs.Prelude.{◌≡◌, ◌<◌, ℕ, All};
ghost use Rattle.std.specs.List.{list_any};
ghost use Rattle.ls_set.specs.{has, most_items};
ghost use Rattle.ls_set.specs.declared.query.Query.{Query};
ghost use Rattle.ls_theory.specs.{is_same_query};
ghost use Rattle.ls_drill.specs.Askings.{IsAsked};

use ls_set::{ItemSet, Query};
use ls_theory::Answer;

/// A set, with the items of its queries that were asked.
#[derive(Clone, Copy)]
pub struct Asked {
    set: ItemSet,
    items: ItemSet,
}

// The items of the queries of the set that were asked.
fn asked_items(answers: &[Answer], set: ItemSet) -> ItemSet
    requires { All (λ a. a.query.q < most_items) answers.now }
    ensures { (q : ℕ) → let r : Query = record { a = set; q = q } in
        has result q ≡ list_any (λ a. is_same_query a.query r) answers.now }
{
    let mut items = ItemSet::empty();
    for answer in answers {
        if answer.query.a == set {
            items = items.with(answer.query.q);
        }
    }
    items
}

impl Asked {
    /// Of the set.
    pub fn new(answers: &[Answer], set: ItemSet) -> Asked
        requires { All (λ a. a.query.q < most_items) answers.now }
        ensures set { result.set ≡ set }
        ensures asked { IsAsked answers.now result }
    {
        Asked {
            set,
            items: asked_items(answers, set),
        }
    }

    /// Whether the query was asked. Where it is of another set, it goes on with that one.
    pub fn has(&mut self, answers: &[Answer], query: &Query) -> bool
        requires item { query.now.q < most_items }
        requires items { All (λ a. a.query.q < most_items) answers.now }
        requires asked { IsAsked answers.now self.old }
        ensures value { result ≡ list_any (λ a. is_same_query a.query query.now) answers.now }
        ensures asked { IsAsked answers.now self.new }
    {
        *self = self.moved(answers, query.a);
        self.items.has(query.q)
    }

    // The same of another set, where it is not that one already.
    fn moved(self, answers: &[Answer], set: ItemSet) -> Asked
        requires items { All (λ a. a.query.q < most_items) answers.now }
        requires asked { IsAsked answers.now self }
        ensures set { result.set ≡ set }
        ensures asked { IsAsked answers.now result }
    {
        if self.set == set {
            self
        } else {
            Asked::new(answers, set)
        }
    }
}
