// Where an inquiry looks for an open query.
ghost use Rattle.std.specs.Prelude.{◌≡◌, ◌+◌, ◌-◌, max, ◌≤◌, ◌∷◌, [], true, None, IfSome};
ghost use Rattle.std.specs.Option.{ForSome, option_map};
ghost use Rattle.ls_set.specs.{is_good};
ghost use Rattle.ls_theory.specs.{compatible_sets, is_settled, next_question, spaces_of};
ghost use Rattle.ls_expert.specs.Held.{PlaceFor};
ghost use Rattle.ls_expert.specs.Steps.{question_steps};

use crate::inquiry::Inquiry;
use ls_interior::{Counted, Steps};
use ls_set::Query;
use std::marker::Brand;
use std::sync::ledger::{Blank, Ledger};

impl Inquiry {
    /// The first open query of the blocks that comes after the given good one, or the first of all.
    /// It takes no memory. It forms the closures of the sets that it looks at, each by at most one
    /// interior more than the largest has items. For the first of all it begins where the last
    /// `seek` ended, and looks at none where nothing has changed since.
    pub fn find_question<L: Ledger>(
        &self,
        after: Option<&Query>,
        steps: &mut Steps<L>,
    ) -> Option<Query>
        requires { ForSome after (λ r. is_good self.now.count r.now ≡ true) }
        ensures value { result ≡ next_question self.now (option_map (λ r. r.now) after.entry) }
        ensures good { IfSome result (λ r. is_good self.now.count r ≡ true) }
        ensures cost { steps.new ≤ steps.old
            + question_steps self.now (option_map (λ r. r.now) after.entry) }
    {
        if after.is_none() && self.is_found {
            return self.from;
        }
        let from = self.place_for(after)?;
        self.table
            .find_open(&Counted::new(&self.family), self.blocks, &from, steps)
    }

    /// The same, in a count of its own.
    pub fn next_question(&self, after: Option<&Query>) -> Option<Query>
        requires { ForSome after (λ r. is_good self.now.count r.now ≡ true) }
        ensures value { result ≡ next_question self.now (option_map (λ r. r.now) after.entry) }
        ensures good { IfSome result (λ r. is_good self.now.count r ≡ true) }
    {
        self.question_counted::<Brand>(after, Blank::new(1))
    }

    // The same, counted from the blank on.
    fn question_counted<L: Ledger>(&self, after: Option<&Query>, blank: Blank) -> Option<Query>
        requires query { ForSome after (λ r. is_good self.now.count r.now ≡ true) }
        requires name { blank.name ≡ L.name }
        requires parts { blank.parts ≡ L.parts }
        requires one { blank.parts ≡ 1 }
        ensures value { result ≡ next_question self.now (option_map (λ r. r.now) after.entry) }
        ensures good { IfSome result (λ r. is_good self.now.count r ≡ true) }
    {
        self.find_question(after, &mut Steps::<L>::new(blank))
    }

    // Where the question after the given query, or the first, is looked for.
    fn place_for(&self, after: Option<&Query>) -> Option<Query>
        requires { ForSome after (λ r. is_good self.now.count r.now ≡ true) }
        ensures { PlaceFor self.now (option_map (λ r. r.now) after.entry) result }
    {
        match after {
            Some(_) => self.blocks.next_query(after),
            None => self.from,
        }
    }

    /// Looks for the first open query, so that the next search begins with it. It takes no memory.
    /// An answer that is taken leaves the place; a retraction and other blocks give it up.
    pub fn seek<L: Ledger>(&mut self, steps: &mut Steps<L>)
        ensures kept { self.new ≡ self.old }
        ensures cost { steps.new ≤ steps.old + question_steps self.old None }
    {
        self.from = self.find_question(None, steps);
        self.is_found = true;
    }

    /// Whether no query of the blocks is open. Where the largest sets are asked, exactly one space
    /// then fits, that of the compatible sets.
    pub fn is_settled<L: Ledger>(&self, steps: &mut Steps<L>) -> bool
        ensures value { result ≡ is_settled self.now }
        ensures one { result ≡ true → self.now.block ≡ max 1 (self.now.count - 1) →
            spaces_of self.now ≡ compatible_sets self.now ∷ [] }
        ensures cost { steps.new ≤ steps.old + question_steps self.now None }
    {
        let _ = self.standing(); // for the proof
        self.find_question(None, steps).is_none()
    }

    /// The same, in a count of its own.
    pub fn settled(&self) -> bool
        ensures value { result ≡ is_settled self.now }
        ensures one { result ≡ true → self.now.block ≡ max 1 (self.now.count - 1) →
            spaces_of self.now ≡ compatible_sets self.now ∷ [] }
    {
        let _ = self.standing(); // for the proof
        self.next_question(None).is_none()
    }
}
