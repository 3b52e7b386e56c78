// Tables of closures.
ghost use Rattle.std.specs.Prelude.{◌≡◌, ◌+◌, ◌*◌, ◌<◌, ◌≤◌, ◌==◌, ◌++◌, ◌∷◌, true, not};
ghost use Rattle.std.specs.Prelude.{List, [], length, map, filter, count_by, OnOk, IfOk};
ghost use Rattle.std.specs.List.{list_all};
ghost use Rattle.ls_set.specs.{Items, is_good, is_within};
ghost use Rattle.ls_theory.specs.{breaks};
ghost use Rattle.ls_laws.specs.Spans.{left_by};
ghost use Rattle.ls_laws.specs.Families.{IsFamily};
ghost use Rattle.ls_query.specs.Blocks.{block_sets};

mod telling;

use crate::changing::change_each;
use crate::closures::{close_again, closures_of, standing_of};
use crate::standing_no::{StandingNo, take_out};
use crate::witnesses::{Witnesses, let_go_each, no_witnesses, renew, renew_each, reserve_each};
use crate::yes_change::YesChange;
use ls_interior::{Interior, Steps, closure};
use ls_query::Blocks;
use ls_set::{ItemSet, PLACES, Query};
use ls_theory::No;
use std::alloc::{AllocError, Global};
use std::marker::Model;
use std::sync::ledger::Ledger;

/// The closures of the block sets in a family, and what is kept of the standing answers that are
/// No. With them queries are answered by at most one interior, and block queries by none. Contracts
/// see them as a table, with the states that are kept to show what is not enough, and `spare`, the
/// number of standing Nos for which there is room.
#[derive(Drop)]
pub struct Table {
    n: u32,
    blocks: Blocks,
    closures: Vec<ItemSet>,
    standing: Vec<StandingNo>,
    // for each item
    witnesses: Vec<Witnesses>,
}

impl Model for Table {
    ghost use Rattle.std.specs.Prelude.{◌-◌, vec_len, vec_capacity};
    ghost use Rattle.ls_infer.specs.Tables.{TableRoom, IsTable};

    ghost Value = { TableRoom };

    ghost view = { λ t. record {
      table = record {
        blocks = t.blocks;
        closures = t.closures.items;
        standing = t.standing.items;
      };
      witnesses = t.witnesses.items;
      spare = vec_capacity t.standing - vec_len t.standing;
    } };

    ghost invariant = { λ t. IsTable t.n (record {
      blocks = t.blocks;
      closures = t.closures.items;
      standing = t.standing.items;
    }) };
}

impl Table {
    ghost use Rattle.ls_infer.specs.Changes.{IsChange, most_steps_each};
    ghost use Rattle.ls_theory.specs.{BlockRange};
    ghost use Rattle.ls_infer.specs.Tables.{table_of, standing, AreStates, IsKeptFor};

    /// The table of a family, for blocks of its items and the standing answers that are No, whose
    /// queries are good. It takes at most a step for each block set, and for each answer a step for
    /// each item and one more. It fails only where memory runs out.
    pub fn build<I: Interior, L: Ledger>(
        alloc: Global,
        blocks: Blocks,
        f: &I,
        answers: &[No],
        steps: &mut Steps<L>,
    ) -> Result<Table, AllocError>
        requires items { I.item_count f.now ≡ blocks.item_count }
        requires good { list_all (λ a. is_good (I.item_count f.now) a.query) answers.now ≡ true }
        ensures built { IfOk result (IsKeptFor blocks (I.members f.now) answers.now) }
        ensures cost { steps.new ≤ steps.old
            + (length (block_sets blocks) + (I.item_count f.now + 1) * length answers.now) }
    {
        let n = f.items();
        let mut witnesses = no_witnesses(alloc, n, answers.len())?;
        let closures = closures_of(alloc, blocks, f, steps)?;
        let standing = standing_of(alloc, f, &closures, answers, &mut witnesses, steps)?;
        Ok(Table {
            n,
            blocks,
            closures,
            standing,
            witnesses,
        })
    }

    /// The blocks of whose sets it keeps the closures.
    pub fn blocks(&self) -> Blocks
        ensures { result ≡ self.now.table.blocks }
    {
        self.blocks
    }

    // What is kept of the standing answers that are No.
    pub(crate) fn standing(&self) -> &[StandingNo]
        ensures { result.now ≡ self.now.table.standing }
    {
        &self.standing
    }

    // Keeps the table where a Yes to the good query `r` comes or is taken back.
    fn change<I: Interior, L: Ledger>(
        &mut self,
        f: &I,
        change: YesChange,
        r: &Query,
        steps: &mut Steps<L>,
    )
        requires items { I.item_count f.now ≡ self.old.table.blocks.item_count }
        requires good { is_good self.old.table.blocks.item_count r.now ≡ true }
        ensures kept { (b : BlockRange) (before : List Items) (nos : List No) →
            let after = I.members f.now in IsChange change b.item_count r.now before after →
            self.old.table ≡ table_of b before nos → AreStates after self.old.witnesses →
            IsKeptFor b after nos self.new }
        ensures cost { steps.new ≤ steps.old
            + (count_by (λ c. is_within r.now.a c) self.old.table.closures
            + most_steps_each change self.old.table.blocks.item_count
            * length self.old.table.standing) }
        ensures blocks { self.new.table.blocks ≡ self.old.table.blocks }
    {
        renew_each(&mut self.witnesses);
        close_again(&mut self.closures, self.blocks, f, change, r, steps);
        let witnesses = &mut self.witnesses;
        change_each(
            &mut self.standing,
            f,
            &self.closures,
            change,
            r,
            witnesses,
            steps,
        );
    }

    // Lets go of the states that a Yes to the good query `r` leaves out.
    fn let_go(&mut self, r: &Query)
        requires { is_good self.old.table.blocks.item_count r.now ≡ true }
        ensures witnesses { self.new.witnesses
            ≡ map (filter (λ k. not (breaks k r.now))) self.old.witnesses }
        ensures table { self.new.table ≡ self.old.table }
    {
        let_go_each(&mut self.witnesses, r);
    }

    /// Keeps the table under a Yes to the good query `r`, of which `f` is the family that is left.
    /// It takes no memory, and at most a step for each block set whose closure before the change
    /// has the items of `r`'s A, and for each standing No a step for each item and one more.
    pub fn yes_added<I: Interior, L: Ledger>(&mut self, f: &I, r: &Query, steps: &mut Steps<L>)
        requires items { I.item_count f.now ≡ self.old.table.blocks.item_count }
        requires good { is_good self.old.table.blocks.item_count r.now ≡ true }
        ensures kept { (b : BlockRange) (before : List Items) (nos : List No) →
            IsFamily b.item_count before → I.members f.now ≡ left_by r.now before →
            IsKeptFor b before nos self.old → IsKeptFor b (I.members f.now) nos self.new }
        ensures cost { steps.new ≤ steps.old
            + (count_by (λ c. is_within r.now.a c) self.old.table.closures
            + (self.old.table.blocks.item_count + 1) * length self.old.table.standing) }
        ensures blocks { self.new.table.blocks ≡ self.old.table.blocks }
    {
        self.let_go(r);
        self.change(f, YesChange::Added, r, steps);
    }

    /// Keeps the table where a Yes to the good query `r` is taken back, of which `f` is the family
    /// without it. It takes no memory, and at most a step for each block set whose closure before
    /// the change has the items of `r`'s A, and for each standing No a step for each item and one
    /// more.
    pub fn yes_removed<I: Interior, L: Ledger>(&mut self, f: &I, r: &Query, steps: &mut Steps<L>)
        requires items { I.item_count f.now ≡ self.old.table.blocks.item_count }
        requires good { is_good self.old.table.blocks.item_count r.now ≡ true }
        ensures kept { (b : BlockRange) (nos : List No) →
            IsKeptFor b (left_by r.now (I.members f.now)) nos self.old →
            IsKeptFor b (I.members f.now) nos self.new }
        ensures cost { steps.new ≤ steps.old
            + (count_by (λ c. is_within r.now.a c) self.old.table.closures
            + (self.old.table.blocks.item_count + 1) * length self.old.table.standing) }
        ensures blocks { self.new.table.blocks ≡ self.old.table.blocks }
    {
        // Where the other answers still give the Yes, the family is the same without it.
        if !self.standing.is_empty() && closure(f, r.a, steps).has(r.q) {
            return;
        }
        self.change(f, YesChange::Removed, r, steps);
    }

    /// Makes room for one standing No, and where there is none left for the states of more, unless
    /// memory runs out.
    pub fn reserve_no(&mut self) -> Result<(), AllocError>
        ensures ok { OnOk result (0 < self.new.spare) }
        ensures table { self.new.table ≡ self.old.table }
        ensures witnesses { self.new.witnesses ≡ self.old.witnesses }
    {
        if self.standing.len() == self.standing.capacity() {
            self.standing.reserve(1)?;
            reserve_each(&mut self.witnesses, self.standing.capacity())?;
        }
        Ok(())
    }

    /// Keeps a No that now stands, the last of them, in the room that was made. `f` is the family
    /// of the table. It takes no memory, and a step for each item and one more.
    pub fn no_added<I: Interior, L: Ledger>(&mut self, f: &I, x: No, steps: &mut Steps<L>)
        requires items { I.item_count f.now ≡ self.old.table.blocks.item_count }
        requires room { 0 < self.old.spare }
        requires good { is_good self.old.table.blocks.item_count x.query ≡ true }
        ensures kept { (b : BlockRange) (nos : List No) →
            self.old.table ≡ table_of b (I.members f.now) nos →
            self.new.table ≡ table_of b (I.members f.now) (nos ++ x ∷ []) }
        ensures last { let n = self.old.table.blocks.item_count in
            self.new.table.standing
            ≡ self.old.table.standing ++ standing n (I.members f.now) x ∷ [] }
        ensures closures { self.new.table.closures ≡ self.old.table.closures }
        ensures blocks { self.new.table.blocks ≡ self.old.table.blocks }
        ensures witnesses { self.new.witnesses ≡ self.old.witnesses }
        ensures cost { steps.new ≡ steps.old + (self.old.table.blocks.item_count + 1) }
    {
        self.standing.push_reserved(StandingNo::new(f, &x, steps));
    }

    /// As `no_added`, in at most as many steps: items whose closures, by those of the block sets,
    /// have the item of the query need none, and what is not enough is shared.
    pub fn no_added_shared<I: Interior, L: Ledger>(&mut self, f: &I, x: No, steps: &mut Steps<L>)
        requires items { I.item_count f.now ≡ self.old.table.blocks.item_count }
        requires room { 0 < self.old.spare }
        requires good { is_good self.old.table.blocks.item_count x.query ≡ true }
        ensures kept { (b : BlockRange) (nos : List No) →
            AreStates (I.members f.now) self.old.witnesses →
            self.old.table ≡ table_of b (I.members f.now) nos →
            self.new.table ≡ table_of b (I.members f.now) (nos ++ x ∷ []) }
        ensures states { AreStates (I.members f.now) self.old.witnesses →
            AreStates (I.members f.now) self.new.witnesses }
        ensures closures { self.new.table.closures ≡ self.old.table.closures }
        ensures blocks { self.new.table.blocks ≡ self.old.table.blocks }
        ensures cost { steps.new ≤ steps.old + (self.old.table.blocks.item_count + 1) }
    {
        renew(&mut self.witnesses, x.query.q);
        let kept = StandingNo::from_closures(f, &self.closures, &x, &mut self.witnesses, steps);
        self.standing.push_reserved(kept);
    }

    /// Lets go of the standing No with the number. It takes no memory and no step.
    pub fn no_removed(&mut self, number: u64)
        ensures kept { (b : BlockRange) (f : List Items) (nos : List No) →
            self.old.table ≡ table_of b f nos →
            self.new.table ≡ table_of b f (filter (λ a. not (a.number == number)) nos) }
        ensures others { self.new.table.standing
            ≡ filter (λ s. not (s.no.number == number)) self.old.table.standing }
        ensures witnesses { self.new.witnesses ≡ self.old.witnesses }
        ensures closures { self.new.table.closures ≡ self.old.table.closures }
        ensures blocks { self.new.table.blocks ≡ self.old.table.blocks }
    {
        take_out(&mut self.standing, number);
    }
}
