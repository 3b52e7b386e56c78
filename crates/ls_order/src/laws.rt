// Laws of relations and their texts.
ghost use Rattle.std.specs.Prelude.{◌≡◌, List, Ok, length};
ghost use Rattle.ls_set.specs.ItemSet.{Items};
ghost use Rattle.ls_cutting.specs.{Text};
ghost use Rattle.ls_domain.specs.Domains.{IsDomain};
ghost use Rattle.ls_origins.specs.Relations.{covers};
ghost use Rattle.ls_files.specs.PairFiles.{covers_text, relation_of};
ghost use Rattle.ls_order.specs.Orders.{IsOrder};

/// The text of the covers of a partial order is read as the order. Nothing is done.
pub fn relations_are_read_back()
    ensures { (names : List Text) (below : List Items) → IsDomain names →
        IsOrder (length names) below →
        relation_of names (covers_text names (covers (length names) below)) ≡ Ok below }
{}
