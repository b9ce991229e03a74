// The beginning of a text, as a number.
ghost use Rattle.std.specs.Prelude.{◌≡◌};
ghost use Rattle.ft_path.specs.Front.{front_of};

/// How many bytes make the front of a text.
const FRONT: usize = 8;

/// Returns the first eight bytes as the digits of a number. The first byte is the greatest digit,
/// and missing bytes count as zeros.
pub(crate) fn front_of(bytes: &[u8]) -> u64
    ensures { result ≡ front_of bytes.now }
{
    if let [a, b, c, d, e, f, g, h, ..] = bytes {
        return u64::from_be_bytes([*a, *b, *c, *d, *e, *f, *g, *h]);
    }
    front_of_few(bytes)
}

/// Returns the same number as `front_of`, byte by byte.
fn front_of_few(bytes: &[u8]) -> u64
    ensures { result ≡ front_of bytes.now }
{
    let mut front: u64 = 0;
    for at in 0..FRONT {
        let byte = bytes.get(at).copied().unwrap_or(0);
        front = front * 256 + u64::from(byte);
    }
    front
}
