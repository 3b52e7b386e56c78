// What stands on the base of an interview, decided.
ghost use Rattle.std.specs.Prelude.{◌≡◌, true, IfOk};
ghost use Rattle.std.specs.Option.{option_map_or};
ghost use Rattle.ls_set.specs.{IsWithin, full};
ghost use Rattle.ls_theory.specs.{base_verdict, clauses_at, is_order, is_space, projection};
ghost use Rattle.ls_theory.specs.{state_of};
ghost use Rattle.ls_theory.specs.{yes_queries};
ghost use Rattle.ls_theory.specs.Bases as bases;
ghost use Rattle.ls_base.specs.Bases.{family};
ghost use Rattle.ls_base.specs.Followed.{IsFollowed};
ghost use Rattle.ls_meaning.specs.declared.response.Response.TheVariants as response;
ghost use Rattle.ls_meaning.specs.declared.response.Shown.TheVariants as shown;
ghost use Rattle.ls_meaning.specs.{IsViewOn, learned, paths_shown, state_shown, view_row};
ghost use Rattle.ls_meaning.specs.RelationRows.{relation_shown};
ghost use Rattle.ls_deciding.specs.Views.{is_based, based_on};

use ls_base::{Base, Followed};
use ls_expert::Inquiry;
use ls_fringe::state_of;
use ls_interior::Inside;
use ls_meaning::{Refusal, Response, Shown, SurmiseClauses, View};
use ls_order::Relation;
use ls_origins::RelationFault;
use ls_paths::Order;
use ls_project::project_base;
use ls_set::{ItemList, ItemSet, SetList};
use ls_space::test_base;
use ls_surmise::{FromFault, Surmise};
use ls_theory::BaseVerdict;
use std::alloc::{AllocError, Global};

/// What is shown where something that stands on the base is asked of the interview. `followed` is
/// its base, followed over the Yes answers.
pub fn decide_based(
    alloc: Global,
    inquiry: &Inquiry,
    followed: &Followed,
    asked: View,
) -> Result<Response, AllocError>
    requires based { is_based asked ≡ true }
    requires on { IsViewOn inquiry.now.count asked }
    requires followed { let i = inquiry.now in
        IsFollowed i.count i.start (yes_queries i.answers) followed.now }
    ensures { IfOk result (λ r. r ≡ view_row inquiry.now asked) }
{
    let _ = inquiry.standing(); // it is sound
    match followed {
        Followed::Within(base) => show(alloc, base, asked),
        Followed::Past { position, count } => Ok(Response::Refused(Refusal::Past {
            position: *position,
            count: *count,
        })),
    }
}

// What is shown of the family of a base.
fn show(alloc: Global, base: &Base, asked: View) -> Result<Response, AllocError>
    requires based { is_based asked ≡ true }
    requires on { IsViewOn base.now.item_count asked }
    requires space { is_space (full base.now.item_count) (family base.now) ≡ true }
    ensures { IfOk result (λ r. r ≡ based_on base.now.item_count (family base.now) asked) }
{
    match asked {
        View::Base => Ok(Response::Shown(Shown::Base {
            sets: SetList::from_slice(alloc, base.sets())?,
        })),
        View::Surmise => Ok(Response::Shown(Shown::Surmise(clauses_of(alloc, base)?))),
        View::Learning => Ok(Response::Shown(Shown::Learning(test_base(base)))),
        View::ProjectBase { part } => projected_base(alloc, base, part),
        View::StateOf { inner, outer } => Ok(state_with(base, inner, outer)),
        View::Paths { count, after } => Ok(paths(base, count, after)),
        View::SkillMap => Ok(Response::Shown(Shown::SkillMap {
            base: SetList::from_slice(alloc, base.sets())?,
        })),
        View::Relation => relation(alloc, base),
        View::Known { .. } | View::Ask | View::Fringes { .. } => unreachable!(),
        View::States { .. } | View::Project { .. } => unreachable!(),
    }
}

// The surmise function.
fn clauses_of(alloc: Global, base: &Base) -> Result<SurmiseClauses, AllocError>
    ensures { IfOk result (λ s. s ≡ clauses_at base.now.item_count (family base.now)) }
{
    let items = base.items();
    let atoms = base.atom_sets()?;
    let base = SetList::from_slice(alloc, base.sets())?;
    Ok(SurmiseClauses { items, base, atoms })
}

// The covers of the surmise relation, or what keeps the surmise function from being one.
fn relation(alloc: Global, base: &Base) -> Result<Response, AllocError>
    requires { is_space (full base.now.item_count) (family base.now) ≡ true }
    ensures { let n = base.now.item_count in
        IfOk result (λ r. r ≡ relation_shown n (clauses_at n (family base.now))) }
{
    let _ = base.sets(); // for the proof
    let surmise = match Surmise::from_base(alloc, base) {
        Ok(surmise) => surmise,
        Err(FromFault::Memory(e)) => return Err(e),
        Err(FromFault::NotSpanning { .. }) => unreachable!(),
    };
    match Relation::from_surmise(alloc, &surmise) {
        Ok(relation) => Ok(Response::Shown(Shown::Covers(relation.covers(alloc)?))),
        Err(RelationFault::Memory(e)) => Err(e),
        Err(fault) => Ok(Response::Shown(Shown::NoRelation(fault))),
    }
}

// The base of the projection on a part of the items.
fn projected_base(alloc: Global, base: &Base, part: ItemSet) -> Result<Response, AllocError>
    requires { IsWithin part (full base.now.item_count) }
    ensures { let g = projection base.now.item_count part (family base.now) in
        IfOk result (λ r.
        r ≡ response.Shown (shown.ProjectedBase (bases.base g) (base_verdict g))) }
{
    let projected = project_base(alloc, base, part)?;
    let verdict = test_base(&projected);
    let base = SetList::from_slice(alloc, projected.sets())?;
    Ok(Response::Shown(Shown::ProjectedBase { base, verdict }))
}

// The state of a learning space with two fringes.
fn state_with(base: &Base, inner: ItemSet, outer: ItemSet) -> Response
    requires { is_space (full base.now.item_count) (family base.now) ≡ true }
    ensures { let f = family base.now in
        result ≡ learned f (state_shown (state_of base.now.item_count f inner outer)) }
{
    match test_base(base) {
        BaseVerdict::NotGraded { set, first, second } => {
            Response::Refused(Refusal::NotLearning { set, first, second })
        }
        BaseVerdict::Learning => match state_of(base, inner, outer) {
            Some(set) => Response::Shown(Shown::State(set)),
            None => Response::Refused(Refusal::NoState),
        },
    }
}

// A page of learning paths.
fn paths(base: &Base, count: u32, after: Option<ItemList>) -> Response
    ensures { result ≡ learned (family base.now) (paths_shown base.now.item_count count after) }
{
    match test_base(base) {
        BaseVerdict::NotGraded { set, first, second } => {
            Response::Refused(Refusal::NotLearning { set, first, second })
        }
        BaseVerdict::Learning if is_order(base, &after) => {
            Response::Shown(Shown::Paths { count, after })
        }
        BaseVerdict::Learning => Response::Refused(Refusal::NotOrder),
    }
}

// Whether the list, if there is one, has each item once.
fn is_order(base: &Base, after: &Option<ItemList>) -> bool
    ensures { result ≡ option_map_or (is_order base.now.item_count) after.now true }
{
    let n = base.items();
    match after {
        Some(order) => Order::from_items(n, order.as_slice()).is_some(),
        None => true,
    }
}
