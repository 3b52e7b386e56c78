// Lists of answers of a safe interview.
ghost use Rattle.std.specs.Prelude.{◌≡◌, IfOk};

use crate::SafeAnswer;
use std::alloc::{AllocError, Global};
use std::marker::Model;

/// Answers of a safe interview, in order of number.
#[derive(Drop)]
pub struct SafeAnswers {
    answers: Vec<SafeAnswer>,
}

impl Model for SafeAnswers {
    ghost use Rattle.std.specs.Prelude.{List};
    ghost use Rattle.ls_origins.specs.declared.safe_answer.SafeAnswer.{SafeAnswer as Accepted};

    ghost Value = { List Accepted };

    ghost view = { λ l. l.answers.items };
}

impl SafeAnswers {
    /// The answers of a slice, in its order.
    pub fn from_slice(alloc: Global, answers: &[SafeAnswer]) -> Result<Self, AllocError>
        ensures { IfOk result (λ list. list ≡ answers.now) }
    {
        Ok(SafeAnswers {
            answers: answers.to_vec(alloc)?,
        })
    }

    /// The answers, in their order.
    pub fn as_slice(&self) -> &[SafeAnswer]
        ensures { result.now ≡ self.now }
    {
        &self.answers
    }
}
