// Covers, skill maps and lists of queries, made by calls that the program doesn't make.
ghost use Rattle.std.specs.Prelude.{◌≡◌, length};

use crate::tally::Tally;
use ls_domain::Domain;
use ls_order::{Relation, print_covers};
use ls_set::{ItemSet, Query, QueryList};
use ls_skill::SkillMap;
use std::alloc::{AllocError, Global};

// Files of pairs, each with the text of its covers, and that of the skill map with one skill for
// each base set of its states. In the order of sets b stands first, then a, then c.
const PAIRS: [(&str, &str, &str); 2] = [
    (
        "a b\na c\n",
        "a b\na c\n",
        "{\"a\":[\"s0001\",\"s0002\",\"s0003\"],\"b\":[\"s0001\"],\"c\":[\"s0002\"]}",
    ),
    (
        "a b\nb c\na c\n",
        "b c\na b\n",
        "{\"a\":[\"s0001\",\"s0002\",\"s0003\"],\"b\":[\"s0001\",\"s0002\"],\"c\":[\"s0001\"]}",
    ),
];

// The text of the covers.
fn covers(alloc: Global, domain: &Domain, relation: &Relation) -> Result<Vec<u8>, AllocError> {
    print_covers(alloc, domain, &relation.covers(alloc)?)
}

// The text of the skill map of the base of the relation's states.
fn skills(alloc: Global, domain: &Domain, relation: &Relation) -> Result<Vec<u8>, AllocError>
    requires { length domain.now ≡ relation.now.item_count }
{
    let surmise = relation.to_surmise(alloc)?;
    let base = surmise.to_base()?;
    SkillMap::from_base(alloc, &base)?.print(alloc, domain)
}

fn is_text(made: Result<Vec<u8>, AllocError>, want: &str) -> bool {
    match made {
        Ok(text) => text.as_slice() == want.as_bytes(),
        Err(_) => false,
    }
}

fn relations(tally: &mut Tally, alloc: Global, domain: &Domain) {
    for (pairs, of_covers, of_skills) in &PAIRS {
        let Ok(relation) = Relation::from_text(alloc, domain, pairs.as_bytes()) else {
            return tally.want(false, pairs);
        };
        tally.want(
            is_text(covers(alloc, domain, &relation), of_covers),
            of_covers,
        );
        tally.want(
            is_text(skills(alloc, domain, &relation), of_skills),
            of_skills,
        );
    }
}

// A query is put last.
fn queries(alloc: Global) -> Result<bool, AllocError> {
    let one = |q| Query {
        a: ItemSet::empty(),
        q,
    };
    let mut list = QueryList::new(alloc);
    list.push(one(1))?;
    list.push(one(0))?;
    Ok(list.as_slice() == [one(1), one(0)].as_slice())
}

#[test]
fn values_are_made(rt: HostRuntime) {
    let mut tally = Tally::new();
    match Domain::from_csv(rt.alloc(), b"b\na\nc\n") {
        Ok(domain) => relations(&mut tally, rt.alloc(), &domain),
        Err(_) => tally.want(false, "a domain"),
    }
    tally.want(queries(rt.alloc()) == Ok(true), "a list of queries");
    assert_eq!(rt; tally.wrong, None);
}
