// Why an answer was not taken.
use std::alloc::AllocError;
use thiserror::Error;

/// Why an answer was not taken.
#[derive(Clone, Copy, Debug, PartialEq, Eq, Error)]
pub enum AnswerFault {
    /// The query is not good.
    #[error("the query cannot be asked")]
    BadQuery,
    /// The query was answered, and the answer with the number stands.
    #[error("answer {number} stands")]
    Repeat { number: u64 },
    /// The answer is No, and the standing answers tell Yes.
    #[error("the answers tell Yes")]
    ForcedYes,
    /// The answer is Yes, and the standing answers tell No, by the No with the number `by`.
    #[error("answer {by} tells No")]
    ForcedNo { by: u64 },
    /// As many answers stand as can, or the last number was given.
    #[error("no further answer is taken")]
    Full,
    /// Memory ran out.
    #[error("out of memory")]
    Memory(AllocError),
}

impl From<AllocError> for AnswerFault {
    ghost use Rattle.std.specs.Prelude.{◌≡◌};
    ghost use Rattle.ls_theory.specs.declared.answer_fault.AnswerFault.TheVariants.{Memory};

    ghost from_gives = { λ e f. f ≡ Memory e };

    fn from(e: AllocError) -> AnswerFault {
        AnswerFault::Memory(e)
    }
}
