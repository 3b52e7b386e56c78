// Decimal numbers.
ghost use Rattle.std.specs.Prelude.{◌≡◌};
ghost use Rattle.ls_cutting.specs.Numbers.{is_decimal, number_up_to, is_digit};

/// The number that the word is in decimal without a leading zero, where it is at most the given
/// one.
pub fn number_up_to(most: u32, word: &[u8]) -> Option<u32>
    ensures { result ≡ number_up_to most word.now }
{
    if !is_decimal(word) {
        return None;
    }
    match str::from_utf8(word).unwrap().parse::<u32>() {
        Ok(number) => (number <= most).then_some(number),
        Err(_) => None,
    }
}

// Digits, the first of which is not `0` unless it stands alone.
fn is_decimal(word: &[u8]) -> bool
    ensures { result ≡ is_decimal word.now }
{
    if word.len() > 1 && word[0] == b'0' {
        return false;
    }
    !word.is_empty() && word.iter().all(|b| is_digit(*b))
}

fn is_digit(b: u8) -> bool
    ensures { result ≡ is_digit b }
{
    b.is_ascii_digit()
}
