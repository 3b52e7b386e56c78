// Laws of domains.
ghost use Rattle.std.specs.Prelude.{◌≡◌, ◌<◌, ℕ, List, None, Some, Ok, length, map};
ghost use Rattle.ls_set.specs.{IsWithin, Items, full};
ghost use Rattle.ls_cutting.specs.{Text};
ghost use Rattle.ls_domain.specs.Texts.{name_of, names_of_set};
ghost use Rattle.ls_domain.specs.Meanings.{number_of, items_of, first_unnamed};
ghost use Rattle.ls_domain.specs.Domains.{IsDomain, first_field, names_of_table};
ghost use Rattle.ls_domain.specs.Domains.{names_of_words, table_records};

/// The names of a domain and its numbers stand for each other, one to one. Nothing is done.
pub fn names_and_numbers_agree()
    ensures number { (names : List Text) (i : ℕ) → IsDomain names → i < length names
        → number_of names (name_of names i) ≡ Some i }
    ensures name { (names : List Text) (w : Text) (i : ℕ)
        → number_of names w ≡ Some i → name_of names i ≡ w }
{}

/// What is read from words is a domain, with the words as its names. What is read from a table is
/// one, with the first fields of the records as its names. Each domain is read from its names.
/// Nothing is done.
pub fn domains_are_read()
    ensures words { (ws names : List Text)
        → names_of_words ws ≡ Ok names → IsDomain names × (names ≡ ws) }
    ensures table { (bytes : List ℕ) (names : List Text) → names_of_table bytes ≡ Ok names
        → IsDomain names × (names ≡ map first_field (table_records bytes)) }
    ensures again { (names : List Text) → IsDomain names → names_of_words names ≡ Ok names }
{}

/// The names of a set's items are read as the set, and none of them is unknown. Nothing is done.
pub fn sets_are_read_back()
    ensures set { (names : List Text) (s : Items) → IsDomain names
        → IsWithin s (full (length names)) → items_of names (names_of_set names s) ≡ s }
    ensures named { (names : List Text) (s : Items) → IsDomain names
        → IsWithin s (full (length names)) → first_unnamed names (names_of_set names s) ≡ None }
{}
