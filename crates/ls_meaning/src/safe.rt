// Counts of the answers of a safe interview.
ghost use Rattle.std.specs.Prelude.{◌≡◌};
ghost use Rattle.ls_meaning.specs.SafeRows.{applied, pending};

use ls_origins::SafeAnswer;

/// How many of the answers are applied.
pub fn count_applied(answers: &[SafeAnswer]) -> u64
    ensures { result ≡ applied answers.now }
{
    answers.iter().filter(|a| a.applied).count() as u64
}

/// How many of the answers wait.
pub fn count_pending(answers: &[SafeAnswer]) -> u64
    ensures { result ≡ pending answers.now }
{
    answers.iter().filter(|a| !a.applied).count() as u64
}
