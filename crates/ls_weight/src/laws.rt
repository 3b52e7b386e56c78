// How great the weights and totals of light settings are.
ghost use Rattle.std.specs.Prelude.{◌≡◌, ◌<◌, ◌≤◌, ◌*◌, ◌^◌, true, List, length, None};
ghost use Rattle.std.specs.List.{list_all};
ghost use Rattle.ls_set.specs.{Items};
ghost use Rattle.ls_theory.specs.declared.ratio.Ratios.{Ratios};
ghost use Rattle.ls_theory.specs.declared.reply.Reply.{Reply};
ghost use Rattle.ls_theory.specs.{total, weight};
ghost use Rattle.ls_theory.specs.Settings.{Settings, are_ratios, greatest, heavy_after};

/// A weight is at least 1, and at most the greatest number of the ratios to the power of the number
/// of replies; so a total is at most that for each state. Where settings are not too heavy for the
/// states, a weight and the total within the budget are at most 2 ^ 120. It does nothing when it
/// runs.
pub fn light_totals_fit()
    ensures some { (ratios : List Ratios) (replies : List Reply) (k : Items) →
        list_all are_ratios ratios ≡ true → 0 < weight ratios replies k }
    ensures weight { (ratios : List Ratios) (replies : List Reply) (k : Items) →
        list_all are_ratios ratios ≡ true → 0 < length ratios →
        weight ratios replies k ≤ greatest ratios ^ length replies }
    ensures total { (ratios : List Ratios) (replies : List Reply) (f : List Items) →
        list_all are_ratios ratios ≡ true → 0 < length ratios →
        total ratios replies f ≤ length f * greatest ratios ^ length replies }
    ensures light_weight { (s : Settings) (replies : List Reply) (f : List Items) (k : Items) →
        list_all are_ratios s.ratios ≡ true → 0 < length f →
        heavy_after s (length f) ≡ None → length replies ≤ s.budget →
        weight s.ratios replies k ≤ 2 ^ 120 }
    ensures light_total { (s : Settings) (replies : List Reply) (f : List Items) →
        list_all are_ratios s.ratios ≡ true →
        heavy_after s (length f) ≡ None → length replies ≤ s.budget →
        total s.ratios replies f ≤ 2 ^ 120 }
{}
