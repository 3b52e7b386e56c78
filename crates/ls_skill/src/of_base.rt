// The names of the skills of a base.
ghost use Rattle.std.specs.Prelude.{◌≡◌, ◌<◌, ◌∷◌, ◌++◌, [], IfOk, OnOk};
ghost use Rattle.std.specs.String.{string_bytes};
ghost use Rattle.ls_files.specs.SkillFiles.{digit_of, skill_name};

use std::alloc::{AllocError, Global};

// The digit of a number at a power of ten.
fn digit_of(number: u32, power: u32) -> char
    requires { 0 < power }
    ensures value { result ≡ digit_of number power }
    ensures small { result < 128 }
{
    (b'0' + (number / power % 10) as u8) as char
}

// Appends the digit of a number at a power of ten.
fn push_digit(name: &mut String, number: u32, power: u32) -> Result<(), AllocError>
    requires { 0 < power }
    ensures { OnOk result (
        string_bytes name.new ≡ string_bytes name.old ++ digit_of number power ∷ []) }
{
    name.push(digit_of(number, power))
}

/// The name of the skill of a number: `s` and four digits.
#[tactic(auto, unfolding(ls_files::specs::SkillFiles::skill_name))]
pub(crate) fn skill_name(alloc: Global, number: u32) -> Result<String, AllocError>
    ensures { IfOk result (λ s. string_bytes s ≡ skill_name number) }
{
    let mut name = String::from_str(alloc, "s")?;
    push_digit(&mut name, number, 1000)?;
    push_digit(&mut name, number, 100)?;
    push_digit(&mut name, number, 10)?;
    push_digit(&mut name, number, 1)?;
    Ok(name)
}
