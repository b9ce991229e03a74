// The value of a flag that sets a limit.
ghost use Rattle.std.specs.Prelude.{◌≡◌};
ghost use Rattle.ft_needs.specs.Values.{ends_in, front_of, limit_of, parts_of, size_of, up_to};

use ft_words::parse_u64;

/// Returns the limit that a text gives: a number, or `none`, which means the greatest one. There is
/// none if the number is beyond that, or the text is no number.
pub fn limit_of(text: &[u8], most: u64) -> Option<u64>
    ensures { result ≡ limit_of text.now most }
{
    if text == b"none".as_slice() {
        return Some(most);
    }
    up_to(most, parse_u64(text)?)
}

/// Returns the same of a size, which may end in `K`, `M` or `G`, for 2^10, 2^20 or 2^30 bytes.
pub fn size_of(text: &[u8], most: u64) -> Option<u64>
    ensures { result ≡ size_of text.now most }
{
    if text == b"none".as_slice() {
        return Some(most);
    }
    let (digits, unit) = parts_of(text);
    up_to(most, parse_u64(digits)?.checked_mul(unit)?)
}

/// Returns a number, if it is not above the greatest.
fn up_to(most: u64, number: u64) -> Option<u64>
    ensures { result ≡ up_to most number }
{
    if number <= most { Some(number) } else { None }
}

/// Returns the digits of a size, and the unit that they count in.
fn parts_of(text: &[u8]) -> (&[u8], u64)
    ensures { (result.0.now, result.1) ≡ parts_of text.now }
{
    if let Some(digits) = text.strip_suffix(b"K".as_slice()) {
        (digits, 1 << 10)
    } else if let Some(digits) = text.strip_suffix(b"M".as_slice()) {
        (digits, 1 << 20)
    } else if let Some(digits) = text.strip_suffix(b"G".as_slice()) {
        (digits, 1 << 30)
    } else {
        (text, 1)
    }
}
