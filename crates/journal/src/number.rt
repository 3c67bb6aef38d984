// Numbers as a journal writes them.
ghost use Rattle.std.specs.Prelude.{◌≡◌};
ghost use Rattle.journal.specs.Decimal.{natural_of, figure_of};

// A number of 32 bits.
pub(crate) fn natural(word: &[u8]) -> Option<u32>
    ensures { result ≡ natural_of word.now }
{
    if word.is_empty() {
        return None;
    }
    let mut value: u32 = 0;
    for byte in word {
        if !byte.is_ascii_digit() {
            return None;
        }
        let digit = u32::from(*byte - b'0');
        value = value.checked_mul(10)?.checked_add(digit)?;
    }
    Some(value)
}

// A signed number of 32 bits.
pub(crate) fn figure(word: &[u8]) -> Option<i32>
    ensures { result ≡ figure_of word.now }
{
    match word {
        [b'-', digits @ ..] => i32::try_from(-i64::from(natural(digits)?)).ok(),
        _ => i32::try_from(natural(word)?).ok(),
    }
}
