// Laws of weights, and of when an assessment is over.
ghost use Rattle.std.specs.Prelude.{◌≡◌, ◌≢◌, ◌↔◌, ◌+◌, ◌*◌, ℕ, true, false, not, if◌then◌else◌};
ghost use Rattle.std.specs.Prelude.{List, [], ◌∷◌, ◌++◌, filter, length, sum_by};
ghost use Rattle.ls_set.specs.{Items, has};
ghost use Rattle.ls_theory.specs.declared.ratio.Ratios.{Ratios};
ghost use Rattle.ls_theory.specs.declared.reply.Reply.{Reply};
ghost use Rattle.ls_theory.specs.declared.asked.Asked.TheVariants.{Item, Over};
ghost use Rattle.ls_theory.specs.declared.reason.Reason.TheVariants.{Share, Budget};
ghost use Rattle.ls_theory.specs.{asked, factor, half_split, has_share, mass, total, weight};
ghost use Rattle.ls_theory.specs.Settings.{Settings};

/// The mass of an item is the sum of the weights of the members with it, and with the weights of
/// the others it makes the total; a further reply multiplies each weight by its factor.
pub fn masses_are_sums()
    ensures sum { (ratios : List Ratios) (replies : List Reply) (f : List Items) (q : ℕ) →
        mass ratios replies f q ≡ sum_by (λ k. if has k q then weight ratios replies k else 0) f }
    ensures rest { (ratios : List Ratios) (replies : List Reply) (f : List Items) (q : ℕ) →
        mass ratios replies f q + total ratios replies (filter (λ k. not (has k q)) f)
        ≡ total ratios replies f }
    ensures reply { (ratios : List Ratios) (replies : List Reply) (r : Reply) (k : Items) →
        weight ratios (replies ++ (r ∷ [])) k ≡ weight ratios replies k * factor ratios k r }
{}

/// An assessment is over by share where the leader has it, and by budget only where the leader
/// lacks it; where neither holds, the half-split item is asked.
pub fn share_comes_before_budget()
    ensures share { (s : Settings) (f : List Items) (replies : List Reply) →
        (asked s f replies ≡ Over Share) ↔ (has_share s f replies ≡ true) }
    ensures budget { (s : Settings) (f : List Items) (replies : List Reply) →
        (asked s f replies ≡ Over Budget)
        ↔ ((has_share s f replies ≡ false) × (length replies ≡ s.budget)) }
    ensures item { (s : Settings) (f : List Items) (replies : List Reply) →
        has_share s f replies ≡ false → length replies ≢ s.budget →
        asked s f replies ≡ Item (half_split s.ratios replies f) }
{}
