// Numbers.
ghost use Rattle.std.specs.Prelude.{◌≡◌, ◌*◌, Some, None};
ghost use Rattle.ft_words.specs.Spelling.{parse_u64, parse_u32, parse_i64, not_negative, negative, with_digit};

/// Returns the number that a word of 1 to 20 digits stands for, if it is below 2^64.
pub fn parse_u64(word: &[u8]) -> Option<u64>
    ensures { result ≡ parse_u64 word.now }
{
    if word.is_empty() || word.len() > 20 {
        return None;
    }
    let mut number = 0;
    for byte in word {
        number = with_digit(number, *byte)?;
    }
    Some(number)
}

/// Returns the number with this digit after its own digits. Returns `None` if the byte is no digit,
/// or if the number would not be below 2^64.
fn with_digit(number: u64, byte: u8) -> Option<u64>
    ensures { result ≡ with_digit number byte }
{
    if !byte.is_ascii_digit() {
        return None;
    }
    number.checked_mul(10)?.checked_add(u64::from(byte - b'0'))
}

/// Returns the number that a word of at most 10 digits spells, if it is below 2^32.
pub fn parse_u32(word: &[u8]) -> Option<u32>
    ensures { result ≡ parse_u32 word.now }
{
    if word.len() > 10 {
        return None;
    }
    u32::try_from(parse_u64(word)?).ok()
}

/// Returns the integer that such a word stands for, with `-` before it if it is negative.
pub fn parse_i64(word: &[u8]) -> Option<i64>
    ensures { result ≡ parse_i64 word.now }
{
    match word {
        [b'-', digits @ ..] => negative(parse_u64(digits)?),
        _ => not_negative(parse_u64(word)?),
    }
}

/// Returns this number as an integer, if it is in range.
fn not_negative(number: u64) -> Option<i64>
    ensures { result ≡ not_negative number }
{
    0_i64.checked_add_unsigned(number)
}

/// Returns the negative of this number as an integer, if it is in range.
fn negative(number: u64) -> Option<i64>
    ensures { result ≡ negative number }
{
    0_i64.checked_sub_unsigned(number)
}
