// What is printed by calls that the program doesn't make: sets, fringes and a surmise function.
ghost use Rattle.std.specs.Prelude.{◌≡◌, length, IfSome};
ghost use Rattle.ls_set.specs.{IsWithin, full};

use crate::tally::Tally;
use ls_base::Base;
use ls_domain::Domain;
use ls_fringe::print_fringes;
use ls_lines::{Word, WordList};
use ls_set::ItemSet;
use ls_surmise::Surmise;
use ls_theory::FringePair;
use std::alloc::{AllocError, Global};

fn push_words(list: &mut WordList, alloc: Global, texts: &[&str]) -> Result<(), AllocError> {
    for text in texts {
        list.push(Word::new(alloc, text)?)?;
    }
    Ok(())
}

// The set that a copy of the words names.
fn read_copy(alloc: Global, domain: &Domain, list: &WordList) -> Option<ItemSet>
    ensures { IfSome result (λ s. IsWithin s (full (length domain.now))) }
{
    match list.copy(alloc) {
        Ok(words) => domain.read_set(&words).ok(),
        Err(_) => None,
    }
}

// The set that the words name.
fn set_of(alloc: Global, domain: &Domain, texts: &[&str]) -> Option<ItemSet>
    ensures { IfSome result (λ s. IsWithin s (full (length domain.now))) }
{
    let mut list = WordList::new(alloc);
    match push_words(&mut list, alloc, texts) {
        Ok(()) => read_copy(alloc, domain, &list),
        Err(_) => None,
    }
}

// Whether the set is printed so: within braces, and then its names without.
fn is_set_printed(alloc: Global, domain: &Domain, set: ItemSet, want: &str) -> bool {
    let mut out = Vec::new(alloc);
    domain.print_set(set, &mut out).is_ok()
        && domain.push_names(set, &mut out).is_ok()
        && out.as_slice() == want.as_bytes()
}

// The words of some sets of b, a and c, each with what is printed of it.
const SETS: [(&[&str], &str); 3] = [
    (&["c", "b", "c"], "{b c}b c"),
    (&["a"], "{a}a"),
    (&[], "{}"),
];

fn sets(tally: &mut Tally, alloc: Global, domain: &Domain) {
    for (texts, want) in &SETS {
        let holds = match set_of(alloc, domain, texts) {
            Some(set) => is_set_printed(alloc, domain, set, want),
            None => false,
        };
        tally.want(holds, want);
    }
}

// Whether the fringes are printed so.
fn is_pair_printed(alloc: Global, domain: &Domain, pair: &FringePair, want: &str) -> bool
    requires inner { IsWithin pair.now.inner (full (length domain.now)) }
    requires outer { IsWithin pair.now.outer (full (length domain.now)) }
{
    let mut out = Vec::new(alloc);
    print_fringes(domain, pair, &mut out).is_ok() && out.as_slice() == want.as_bytes()
}

// The words of some fringes, and what is printed of them.
const FRINGES: [(&[&str], &[&str], &str); 3] = [
    (&["b"], &["c", "a"], "b | a c"),
    (&[], &["b", "c"], "| b c"),
    (&["a", "c"], &[], "a c |"),
];

fn fringes(tally: &mut Tally, alloc: Global, domain: &Domain) {
    for (inner, outer, want) in &FRINGES {
        let holds = match (set_of(alloc, domain, inner), set_of(alloc, domain, outer)) {
            (Some(inner), Some(outer)) => {
                is_pair_printed(alloc, domain, &FringePair { inner, outer }, want)
            }
            _ => false,
        };
        tally.want(holds, want);
    }
}

// A surmise function in which b has two clauses.
const CLAUSES: &str = "{\"a\":[[\"a\"]],\"b\":[[\"b\",\"a\"],[\"b\",\"c\"]],\"c\":[[\"c\"]]}";

// The surmise function that a base gives is printed as the clauses.
fn is_printed(alloc: Global, domain: &Domain, base: &Base) -> bool
    requires { length domain.now ≡ base.now.item_count }
{
    let Ok(surmise) = Surmise::from_base(alloc, base) else {
        return false;
    };
    match surmise.print(domain) {
        Ok(text) => text.as_slice() == CLAUSES.as_bytes(),
        Err(_) => false,
    }
}

// The clauses give a base, and the base gives them again.
fn is_read(alloc: Global, domain: &Domain) -> bool {
    let Ok(surmise) = Surmise::from_json(alloc, domain, CLAUSES.as_bytes()) else {
        return false;
    };
    match surmise.to_base() {
        Ok(base) => is_printed(alloc, domain, &base),
        Err(_) => false,
    }
}

#[test]
fn values_are_printed(rt: HostRuntime) {
    let mut tally = Tally::new();
    match Domain::from_csv(rt.alloc(), b"b\na\nc\n") {
        Ok(domain) => {
            sets(&mut tally, rt.alloc(), &domain);
            fringes(&mut tally, rt.alloc(), &domain);
            tally.want(is_read(rt.alloc(), &domain), CLAUSES);
        }
        Err(_) => tally.want(false, "a domain"),
    }
    assert_eq!(rt; tally.wrong, None);
}
