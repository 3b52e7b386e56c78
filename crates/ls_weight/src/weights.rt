// The weights of listed states after replies.
ghost use Rattle.std.specs.Prelude.{◌≡◌, ◌<◌, ◌≤◌, ◌++◌, ◌∷◌, ◌^◌, [], ℕ, length, slice_get};
ghost use Rattle.std.specs.Prelude.{nat_lt, true, Some, None, Err, IfOk, OnOk};
ghost use Rattle.std.specs.List.{list_all};
ghost use Rattle.ls_set.specs.{Items};
ghost use Rattle.ls_theory.specs.{heavy_after, leader, mass, total, weight};
ghost use Rattle.ls_weight.specs.Weighings.{IsWeighable};

use crate::fault::WeightFault;
use crate::heaviest::heaviest_after;
use crate::masses::{agreeing_of, sum_after};
use crate::passes::TABLE_CELLS;
use crate::rows::StateRows;
use crate::settings::Settings;
use crate::tables::Tables;
use ls_set::{ItemSet, SetList};
use ls_theory::Reply;
use std::alloc::{AllocError, Global};
use std::marker::Model;
use std::rc::Rc;

/// The weights of listed states after replies, by the settings of an assessment. Contracts see the
/// settings, the states and the replies.
///
/// With the weights, the masses, the total and the heaviest state are kept. A reply is one pass
/// over the states; the states of several pupils are kept once.
#[derive(Drop)]
pub struct Weights {
    alloc: Global,
    settings: Settings,
    rows: Rc<StateRows>,
    replies: Vec<Reply>,
    weights: Vec<u128>,
    masses: Vec<u128>,
    total: u128,
    heaviest: usize,
    tables: Tables,
}

impl Model for Weights {
    ghost use Rattle.std.specs.Prelude.{length, vec_capacity};
    ghost use Rattle.ls_weight.specs.Weighings.{Weighing, AreKeptSums};

    ghost Value = { Weighing };

    ghost view = { λ w. record {
      settings = w.settings;
      states = w.rows.value.states;
      replies = w.replies.items;
    } };

    ghost invariant = { λ w. AreKeptSums w.rows.value.item_count
        (record {
          settings = w.settings;
          states = w.rows.value.states;
          replies = w.replies.items;
        })
        (record {
          weights = w.weights.items;
          masses = w.masses.items;
          total = w.total;
          heaviest = w.heaviest;
          cells = w.tables;
          room = vec_capacity w.replies;
        }) };
}

impl Weights {
    ghost use Rattle.ls_weight.specs.declared.fault.WeightFault.TheVariants.{Heavy};

    // The weights of states that can be weighed and are not too heavy.
    fn begin(alloc: Global, rows: Rc<StateRows>, s: &Settings) -> Result<Weights, AllocError>
        requires items { rows.value.item_count ≡ length s.now.ratios }
        requires weighable { IsWeighable (length s.now.ratios) rows.value.states s.now }
        requires light { heavy_after s.now (length rows.value.states) ≡ None }
        ensures { IfOk result
            (λ w. w ≡ record { settings = s.now; states = rows.value.states; replies = [] }) }
    {
        let settings = s.copy()?;
        let replies = Vec::with_capacity(alloc, s.budget() as usize)?;
        let count = rows.states().len();
        let weights = Vec::from_elem(alloc, 1, count)?;
        let masses = Vec::from_slice(alloc, rows.counts())?;
        let tables = Tables::new(alloc, TABLE_CELLS * rows.width())?;
        Ok(Weights {
            alloc,
            settings,
            rows,
            replies,
            weights,
            masses,
            total: count as u128,
            heaviest: 0,
            tables,
        })
    }

    // The weights of listed states that can be weighed and are not too heavy.
    fn begin_rows(
        alloc: Global,
        n: u32,
        states: SetList,
        s: &Settings,
    ) -> Result<Weights, AllocError>
        requires weighable { IsWeighable n states s.now }
        requires light { heavy_after s.now (length states) ≡ None }
        ensures { IfOk result
            (λ w. w ≡ record { settings = s.now; states = states; replies = [] }) }
    {
        let rows = Rc::new(alloc, StateRows::new(alloc, n, states)?)?;
        Weights::begin(alloc, rows, s)
    }

    // The weights of the same states under other settings, which are not too heavy for them.
    fn begin_again(&self, s: &Settings) -> Result<Weights, AllocError>
        requires items { length s.now.ratios ≡ length self.now.settings.ratios }
        requires light { heavy_after s.now (length self.now.states) ≡ None }
        ensures { IfOk result
            (λ w. w ≡ record { settings = s.now; states = self.now.states; replies = [] }) }
    {
        Weights::begin(self.alloc, self.rows.clone()?, s)
    }

    /// The weights of the states, each 1, before any reply. `Heavy` comes exactly where the total
    /// may pass 2 ^ 120 within the budget, with the least number of replies after which it may.
    pub fn new(alloc: Global, n: u32, states: SetList, s: &Settings) -> Result<Weights, WeightFault>
        requires { IsWeighable n states s.now }
        ensures ok { IfOk result
            (λ w. w ≡ record { settings = s.now; states = states; replies = [] }) }
        ensures light { OnOk result (heavy_after s.now (length states) ≡ None) }
        ensures heavy { (r : ℕ) → result ≡ Err (Heavy r) →
            heavy_after s.now (length states) ≡ Some r }
    {
        if let Some(replies) = s.heavy_after(states.len()) {
            return Err(WeightFault::Heavy { replies });
        }
        Weights::begin_rows(alloc, n, states, s).map_err(WeightFault::Memory)
    }

    /// The weights of the same states under other settings of as many items, before any reply; it
    /// fails as [`Weights::new`] does.
    pub fn again(&self, s: &Settings) -> Result<Weights, WeightFault>
        requires { length s.now.ratios ≡ length self.now.settings.ratios }
        ensures ok { IfOk result
            (λ w. w ≡ record { settings = s.now; states = self.now.states; replies = [] }) }
        ensures light { OnOk result (heavy_after s.now (length self.now.states) ≡ None) }
        ensures heavy { (r : ℕ) → result ≡ Err (Heavy r) →
            heavy_after s.now (length self.now.states) ≡ Some r }
    {
        if let Some(replies) = s.heavy_after(self.rows.states().len()) {
            return Err(WeightFault::Heavy { replies });
        }
        self.begin_again(s).map_err(WeightFault::Memory)
    }

    /// The same weights once more, over the same states.
    pub fn copy(&self) -> Result<Weights, AllocError>
        ensures { IfOk result (λ w. w ≡ self.now) }
    {
        let settings = self.settings.copy()?;
        let mut replies = Vec::with_capacity(self.alloc, settings.budget() as usize)?;
        replies.extend_from_slice(&self.replies)?;
        Ok(Weights {
            alloc: self.alloc,
            settings,
            rows: self.rows.clone()?,
            replies,
            weights: Vec::from_slice(self.alloc, &self.weights)?,
            masses: Vec::from_slice(self.alloc, &self.masses)?,
            total: self.total,
            heaviest: self.heaviest,
            tables: Tables::new(self.alloc, self.tables.cells())?,
        })
    }

    /// Takes one more reply, on the item `q`. It takes no memory.
    pub fn reply(&mut self, q: u32, right: bool)
        requires budget { length self.old.replies < self.old.settings.budget }
        requires item { q < length self.old.settings.ratios }
        ensures { self.new ≡ record self.old {
          replies = self.old.replies ++ record { q = q; right = right } ∷ [];
        } }
    {
        let reply = Reply { q, right };
        let ratio = self.settings.ratio_for(reply);
        let stays = self.rows.agrees(self.heaviest, reply);
        let agreeing = agreeing_of(self.masses[q as usize], self.total, right);
        self.tables.weigh(
            &self.rows,
            &mut self.weights,
            &mut self.masses,
            self.total,
            reply,
            ratio,
        );
        self.total = sum_after(self.total, agreeing, ratio);
        self.heaviest = heaviest_after(&self.weights, self.heaviest, stays);
        self.replies.push_reserved(reply);
    }

    /// The mass of the item `q`: the sum of the weights of the states with it.
    pub fn mass(&self, q: u32) -> u128
        requires { q < length self.now.settings.ratios }
        ensures value { result ≡ mass self.now.settings.ratios self.now.replies self.now.states q }
        ensures part { result ≤ total self.now.settings.ratios self.now.replies self.now.states }
        ensures bound { result ≤ 2 ^ 120 }
    {
        self.masses[q as usize]
    }

    /// The total: the sum of the weights of all states.
    pub fn total(&self) -> u128
        ensures value { result ≡ total self.now.settings.ratios self.now.replies self.now.states }
        ensures bound { result ≤ 2 ^ 120 }
    {
        self.total
    }

    /// The weight of the state at a place of the list.
    pub fn weight(&self, i: usize) -> u128
        requires { i < length self.now.states }
        ensures value { (k : Items) → slice_get self.now.states i ≡ Some k →
            result ≡ weight self.now.settings.ratios self.now.replies k }
        ensures part { result ≤ total self.now.settings.ratios self.now.replies self.now.states }
        ensures bound { result ≤ 2 ^ 120 }
    {
        self.weights[i]
    }

    /// The place of the first state of greatest weight.
    pub fn heaviest(&self) -> usize
        ensures { slice_get self.now.states result
            ≡ Some (leader self.now.settings.ratios self.now.replies self.now.states) }
    {
        self.heaviest
    }

    /// The states, in their order.
    pub fn states(&self) -> &[ItemSet]
        ensures value { result.now ≡ self.now.states }
        ensures weighable { IsWeighable (length self.now.settings.ratios)
            self.now.states self.now.settings }
    {
        self.rows.states()
    }

    /// The replies, from the first on.
    pub fn replies(&self) -> &[Reply]
        ensures value { result.now ≡ self.now.replies }
        ensures budget { length result.now ≤ self.now.settings.budget }
        ensures items { list_all
            (λ r. nat_lt r.q (length self.now.settings.ratios)) result.now ≡ true }
    {
        &self.replies
    }

    /// The settings.
    pub fn settings(&self) -> &Settings
        ensures value { result.now ≡ self.now.settings }
        ensures light { heavy_after result.now (length self.now.states) ≡ None }
    {
        &self.settings
    }
}
