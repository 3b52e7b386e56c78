// Each call of an interview, over three items: item 0 tells item 1, item 2 tells item 0, and item 0
// does not tell item 2.
ghost use Rattle.std.specs.Prelude.{◌≡◌, ◌<◌};

use crate::tally::Tally;
use ls_base::Followed;
use ls_expert::{AnswerFault, BadQuery, Interview, RetractFault, StandingFault, Start, StartFault};
use ls_interior::{Inside, Steps};
use ls_query::BlockFault;
use ls_set::{ItemSet, PLACES, Query};
use ls_theory::{Answer, Known};
use std::alloc::Global;
use std::marker::Brand;
use std::sync::ledger::{Blank, Ledger};

// The query of one item and another.
fn asked(a: u32, q: u32) -> Query
    requires { a < PLACES }
{
    Query {
        a: ItemSet::empty().with(a),
        q,
    }
}

// The queries that are answered, the answers, and what comes of each.
fn answers<L: Ledger>(tally: &mut Tally, interview: &mut Interview, steps: &mut Steps<L>) {
    for (query, yes, want) in [
        (asked(0, 1), true, Ok(1)),
        (asked(0, 2), false, Ok(2)),
        (asked(2, 0), true, Ok(3)),
        (asked(0, 0), true, Err(AnswerFault::BadQuery)),
        (asked(0, 1), false, Err(AnswerFault::Repeat { number: 1 })),
        (asked(1, 2), true, Err(AnswerFault::ForcedNo { by: 2 })),
        (asked(2, 1), false, Err(AnswerFault::ForcedYes)),
    ] {
        tally.want(interview.answer(query, yes, steps) == want, "an answer");
    }
}

fn known<L: Ledger>(tally: &mut Tally, interview: &Interview, steps: &mut Steps<L>) {
    for (query, want) in [
        (asked(1, 2), Ok(Known::No { by: 2 })),
        (asked(2, 1), Ok(Known::Yes)),
        (asked(1, 0), Ok(Known::Unsettled)),
        (asked(0, 0), Err(BadQuery)),
    ] {
        tally.want(interview.known(&query, steps) == want, "what is known");
    }
    let next = interview.next_question(None);
    tally.want(
        next == Some(asked(1, 0)) && !interview.settled(),
        "the next question",
    );
}

// The base under the two Yes answers, whose first set is an atom at item 1.
fn base(tally: &mut Tally, interview: &Interview) {
    let Followed::Within(base) = interview.base() else {
        return tally.want(false, "a base");
    };
    let last = ItemSet::empty().with(2);
    let sets = [ItemSet::full(3), last.with(0), last];
    tally.want(base.sets() == sets.as_slice(), "the base");
    let is_atom = !base.sets().is_empty() && 1 < base.items() && base.is_atom_at(0, 1);
    tally.want(is_atom, "an atom");
}

// The No is taken back, and the queries become shorter.
fn taken_back<L: Ledger>(tally: &mut Tally, interview: &mut Interview, steps: &mut Steps<L>) {
    for (number, want) in [(4, Err(RetractFault::NotStanding)), (2, Ok(()))] {
        tally.want(
            interview.retract(number, steps) == want,
            "an answer taken back",
        );
    }
    for (block, want) in [(0, Err(BlockFault::BadBlock)), (2, Ok(()))] {
        tally.want(interview.set_blocks(block, steps) == want, "blocks");
    }
    tally.want(interview.next_number() == 4, "the next number");
}

// Another start is taken before the answers alone.
fn led<L: Ledger>(tally: &mut Tally, alloc: Global, steps: &mut Steps<L>) {
    let Ok(mut interview) = Interview::new(alloc, 3, Start::Free, steps) else {
        return tally.want(false, "a new interview");
    };
    let begun = interview.set_start(Start::Free, steps);
    answers(tally, &mut interview, steps);
    known(tally, &interview, steps);
    base(tally, &interview);
    taken_back(tally, &mut interview, steps);
    let refused = interview.set_start(Start::Free, steps);
    let holds = begun == Ok(()) && refused == Err(StartFault::AnswersStand);
    tally.want(holds, "another start");
}

fn answered(number: u64, a: u32, q: u32, yes: bool) -> Answer
    requires { a < PLACES }
{
    Answer {
        number,
        query: asked(a, q),
        yes,
    }
}

// The last of three answers, with which they stand or don't.
fn last_of_three(stands: bool) -> Answer {
    if stands {
        return answered(4, 2, 0, true);
    }
    answered(4, 0, 2, false)
}

// Answers that stand give an interview, and others do not.
fn resumed<L: Ledger>(tally: &mut Tally, alloc: Global, steps: &mut Steps<L>) {
    for (k, next, stands, want) in [
        (1, 5, true, None),
        (0, 5, true, Some(StandingFault::BadBlock)),
        (1, 4, true, Some(StandingFault::BadAnswers)),
        (1, 5, false, Some(StandingFault::BadAnswers)),
    ] {
        let last = last_of_three(stands);
        let answers = [answered(1, 0, 1, true), answered(3, 1, 2, true), last];
        let made = Interview::from_standing(alloc, 3, Start::Free, k, next, &answers, steps);
        tally.want(made.err() == want, "answers that stand");
    }
}

fn both<L: Ledger>(tally: &mut Tally, alloc: Global, blank: Blank)
    requires name { blank.name ≡ L.name }
    requires parts { blank.parts ≡ L.parts }
    requires one { blank.parts ≡ 1 }
{
    let mut steps = Steps::<L>::new(blank);
    led(tally, alloc, &mut steps);
    resumed(tally, alloc, &mut steps);
}

#[test]
fn answers_are_taken_and_taken_back(rt: HostRuntime) {
    let mut tally = Tally::new();
    both::<Brand>(&mut tally, rt.alloc(), Blank::new(1));
    assert_eq!(rt; tally.wrong, None);
}
