// Reading the words of the command line.
ghost use Rattle.std.specs.Prelude.{◌≡◌, ◌↔◌, ◌≤◌, [], Ok, IfOk, IfSome, IsErrOf, None, Some, map};
ghost use Rattle.std.specs.Option.{ForSome};
ghost use Rattle.ls_cutting.specs.{greatest_number};
ghost use Rattle.ls_words.specs.Modes.{mode_of, mode_of_option, mode_of_options, IsInRange};
ghost use Rattle.ls_words.specs.declared.mode.Mode.TheVariants.{Input};
ghost use Rattle.ls_words.specs.Modes.{file, drill, read_number};

use crate::{Mode, WordsFault};
use ls_cutting::{Kind, Word};
use std::alloc::Global;

/// The most items that a drill has.
const MOST_DRILLED: u32 = 48;

/// What the words after the program's name ask for.
pub fn read_words(alloc: Global, words: &[&str]) -> Result<Mode, WordsFault>
    ensures read { IfOk result (λ m. mode_of (map (λ w. w.now) words.now) ≡ Some m) }
    ensures range { IfOk result IsInRange }
    ensures input { words.now ≡ [] → result ≡ Ok Input }
    ensures usage { IsErrOf result WordsFault.Usage
        ↔ (mode_of (map (λ w. w.now) words.now) ≡ None) }
{
    match *words {
        [] => Ok(Mode::Input),
        [option, value] => read_option(alloc, option, value),
        [first, value, second, other] => read_options(first, value, second, other),
        _ => Err(WordsFault::Usage),
    }
}

// What one option and its value ask for.
fn read_option(alloc: Global, option: &str, value: &str) -> Result<Mode, WordsFault>
    ensures read { IfOk result (λ m. mode_of_option option.now value.now ≡ Some m) }
    ensures range { IfOk result IsInRange }
    ensures usage { IsErrOf result WordsFault.Usage
        ↔ (mode_of_option option.now value.now ≡ None) }
{
    match option {
        "--script" => file(alloc, value),
        "--drill" => drill(read_number(value), Some(1)),
        _ => Err(WordsFault::Usage),
    }
}

// What two options and their values ask for.
fn read_options(first: &str, value: &str, second: &str, other: &str) -> Result<Mode, WordsFault>
    ensures read { IfOk result (λ m.
        mode_of_options first.now value.now second.now other.now ≡ Some m) }
    ensures range { IfOk result IsInRange }
    ensures usage { IsErrOf result WordsFault.Usage
        ↔ (mode_of_options first.now value.now second.now other.now ≡ None) }
{
    match (first, second) {
        ("--drill", "--number") => drill(read_number(value), read_number(other)),
        ("--number", "--drill") => drill(read_number(other), read_number(value)),
        _ => Err(WordsFault::Usage),
    }
}

// The script that the named file has, where the word is the name of a file.
#[tactic(auto, unfolding(ls_cutting::specs::Kinds::is_of))]
fn file(alloc: Global, name: &str) -> Result<Mode, WordsFault>
    ensures read { IfOk result (λ m. file name.now ≡ Some m) }
    ensures range { IfOk result IsInRange }
    ensures usage { IsErrOf result WordsFault.Usage ↔ (file name.now ≡ None) }
{
    if !Kind::File.takes(name.as_bytes()) {
        return Err(WordsFault::Usage);
    }
    let name = Word::new(alloc, name).map_err(WordsFault::Memory)?;
    Ok(Mode::File { name })
}

// The drill on n items with a number, where there is at least one item and not more than the most.
fn drill(n: Option<u32>, number: Option<u32>) -> Result<Mode, WordsFault>
    requires { ForSome number (λ k. k ≤ greatest_number) }
    ensures read { IfOk result (λ m. drill n number ≡ Some m) }
    ensures range { IfOk result IsInRange }
    ensures usage { IsErrOf result WordsFault.Usage ↔ (drill n number ≡ None) }
{
    match (n, number) {
        (Some(n), Some(number)) if (1..=MOST_DRILLED).contains(&n) => Ok(Mode::Drill {
            n,
            number: u64::from(number),
        }),
        _ => Err(WordsFault::Usage),
    }
}

// The number that a word is, in decimal without a leading zero, where it is at most the greatest.
#[tactic(auto, unfolding(ls_cutting::specs::Kinds::is_of))]
fn read_number(word: &str) -> Option<u32>
    ensures value { result ≡ read_number word.now }
    ensures few { IfSome result (λ k. k ≤ greatest_number) }
{
    if !Kind::Number.takes(word.as_bytes()) {
        return None;
    }
    word.parse::<u32>().ok()
}
