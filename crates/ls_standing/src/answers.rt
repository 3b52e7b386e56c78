// Lists of answers.
ghost use Rattle.std.specs.Prelude.{◌≡◌, ◌+◌, ◌<◌, ◌≤◌, ◌++◌, ◌∷◌, [], ◌&&◌, ◌==◌, not, filter};
ghost use Rattle.std.specs.Prelude.{find, vec_len, vec_capacity, IfOk, IfSome};
ghost use Rattle.ls_theory.specs.{most_number, nos, opposed, yes_queries};
ghost use Rattle.ls_standing.specs.Standing.{rules_before};

use ls_set::Query;
use ls_theory::{Answer, AnswerFault, Known, No};
use std::alloc::{AllocError, Global};

/// The answers that are No.
pub fn nos(alloc: Global, answers: &[Answer]) -> Result<Vec<No>, AllocError>
    ensures { IfOk result (λ v. v.items ≡ nos answers.now) }
{
    let mut found = Vec::new(alloc);
    for answer in answers {
        if !answer.yes {
            found.push(No {
                number: answer.number,
                query: answer.query,
            })?;
        }
    }
    Ok(found)
}

/// The queries that were answered Yes.
pub fn yes_queries(alloc: Global, answers: &[Answer]) -> Result<Vec<Query>, AllocError>
    ensures { IfOk result (λ v. v.items ≡ yes_queries answers.now) }
{
    let mut found = Vec::new(alloc);
    for answer in answers {
        if answer.yes {
            found.push(answer.query)?;
        }
    }
    Ok(found)
}

/// The queries that were answered Yes but for the answer with the number.
pub fn yes_others(alloc: Global, answers: &[Answer], number: u64) -> Result<Vec<Query>, AllocError>
    ensures { IfOk result (λ v.
        v.items ≡ yes_queries (filter (λ a. not (a.number == number)) answers.now)) }
{
    let mut found = Vec::new(alloc);
    for answer in answers {
        if answer.number != number && answer.yes {
            found.push(answer.query)?;
        }
    }
    Ok(found)
}

/// Why the answer is not taken by what is known of its query, if it isn't.
pub fn opposed(known: Known, yes: bool) -> Option<AnswerFault>
    ensures { result ≡ opposed known yes }
{
    match known {
        Known::Yes if !yes => Some(AnswerFault::ForcedYes),
        Known::No { by } if yes => Some(AnswerFault::ForcedNo { by }),
        _ => None,
    }
}

/// Puts the answer to a query last, with the next number.
pub fn put_last(answers: &mut Vec<Answer>, next: &mut u64, query: &Query, yes: bool) -> u64
    requires room { vec_len answers.old < vec_capacity answers.old }
    requires numbers { next.old ≤ most_number }
    ensures number { result ≡ next.old }
    ensures next { next.new ≡ next.old + 1 }
    ensures last { answers.new.items ≡ answers.old.items
        ++ (record { number = next.old; query = query.now; yes = yes }) ∷ [] }
{
    let number = *next;
    let answer = Answer {
        number,
        query: *query,
        yes,
    };
    answers.push(answer).unwrap();
    *next += 1;
    number
}

/// How many Yes answers have a smaller number.
pub fn rules_before(answers: &[Answer], number: u64) -> usize
    ensures { result ≡ rules_before answers.now number }
{
    answers
        .iter()
        .filter(|a| a.yes && a.number < number)
        .count()
}

/// The answer with the number, if there is one.
pub fn answer_with(answers: &[Answer], number: u64) -> Option<Answer>
    ensures value { result ≡ find (λ a. a.number == number) answers.now }
    ensures number { IfSome result (λ a. a.number ≡ number) }
{
    for answer in answers {
        if answer.number == number {
            return Some(*answer);
        }
    }
    None
}

/// Takes out the answer with the number.
pub fn take_out(answers: &mut Vec<Answer>, number: u64)
    ensures { answers.new.items ≡ filter (λ a. not (a.number == number)) answers.old.items }
{
    answers.retain(|a| a.number != number);
}
